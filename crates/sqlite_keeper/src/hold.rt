//! Letting a database go that is open, and taking it again.
//!
//! The kit's `sqlite` locks a database for as long as it is open, and to open it waits for the disk ten times. So the keeper
//! leaves it open, and lets go of its locks: then others read and write it. Before it uses what it has open again, it locks the file,
//! and sees that it is the one at the path, that the log is the one beside it, and that nobody wrote to the log. What others do
//! to the file itself without a word in the log, as copying the log into it, leaves its content as it was.

use crate::lock::{is_free, try_lock, unlock, unlock_all};
use crate::log_end::LogEnd;
use crate::place::{FileId, file_at, file_of};
use std::fs::{self, File, OpenOptions};
use std::io;
use std::os::fd::AsRawFd;

/// The descriptor of the standard error stream, the last of the three.
const LAST_STREAM: i32 = 2;

/// A database that is open, and how it was let go.
#[derive(Drop)]
pub struct Hold {
    /// What locks the database from the second call on. In the first one, who opened it has locked it.
    db: File,
    log: File,
    log_path: String,
    /// Where the log ended when the database was let go, if it was.
    end: Option<LogEnd>,
}

/// Opens a file that is there. What is meant for a standard stream that was closed must not land in it.
fn open(rt: &HostRuntime, path: &str) -> io::Result<File> {
    let file = OpenOptions::new().read(true).write(true).open(rt, path)?;
    if file.as_raw_fd() > LAST_STREAM {
        Ok(file)
    } else {
        file.try_clone()
    }
}

impl Hold {
    /// Takes hold of the database at the path, which is open and locked.
    pub(crate) fn new(rt: &HostRuntime, path: &str) -> io::Result<Hold> {
        // As in SQLite, the log lies where a link leads.
        let real = fs::canonicalize(rt, path)?;
        let log_path = format!(in rt.alloc(); "{}-wal", real.as_str())?;
        Ok(Hold {
            db: open(rt, real.as_str())?,
            log: open(rt, log_path.as_str())?,
            log_path,
            end: None,
        })
    }

    /// Lets the database go.
    pub(crate) fn let_go(&mut self, rt: &HostRuntime) -> io::Result<()> {
        let earlier = self.end;
        self.end = Some(LogEnd::of(&self.log, earlier)?);
        match earlier {
            Some(_) => unlock(self.db.as_raw_fd()),
            None => self.unlock_others(rt),
        }
    }

    /// Lets go of the locks of who opened the database, and sees that they are gone.
    fn unlock_others(&self, rt: &HostRuntime) -> io::Result<()> {
        unlock_all(rt, &[file_of(&self.db)?, file_of(&self.log)?])?;
        if is_free(&self.db)? && is_free(&self.log)? {
            Ok(())
        } else {
            Err(io::ErrorKind::WouldBlock.into())
        }
    }

    /// Locks the database, unless another program has locked it: then this is not done.
    pub(crate) fn try_lock(&self) -> io::Result<bool> {
        try_lock(&self.db)
    }

    /// Whether this is the database at the path, and as it was let go.
    pub(crate) fn is_as_it_was(&self, rt: &HostRuntime, path: &str) -> io::Result<bool> {
        let Some(end) = self.end else {
            return Ok(false);
        };
        Ok(
            file_at(rt, path)? == file_of(&self.db)?
                && file_at(rt, self.log_path.as_str())? == file_of(&self.log)?
                && end.is_still_of(&self.log)?,
        )
    }
}
