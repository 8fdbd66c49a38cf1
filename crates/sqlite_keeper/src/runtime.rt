//! The runtime that opens the file of a store, and the rows that it opens.

ghost use Rattle.std.specs.Prelude.{IfOk};
ghost use Rattle.keeper.specs.Tables.{AreInKeyOrder};

use crate::fault::{CommitFault, fault_of};
use crate::hold::Hold;
use crate::place::{FileId, Wanted, file_at, may_be_opened};
use crate::rows::{commit_row, load_rows, prepare_rows};
use keeper::{KeepFault, KeptRow};
use sqlite::{Connection, Error, ErrorCode, File, FileStore};
use std::alloc::Global;
use std::io::ErrorKind;
use std::thread;
use std::time::Duration;

/// How often a file is tried that another program has open, and the pause between.
const TRIES: u32 = 1000;

const PAUSE_MILLIS: u64 = 2;

/// Rows of a database that is open.
pub trait OpenRows {
    /// Creates the table of rows if it is not there.
    fn prepare(&mut self, alloc: Global) -> Result<(), KeepFault>;

    /// All rows, in the order of their keys.
    fn load(&mut self, alloc: Global) -> Result<Vec<KeptRow>, KeepFault>
        ensures rising { IfOk result (λ rows. AreInKeyOrder rows.items) };

    /// Adds the row, or replaces the one under its key.
    fn commit(&mut self, alloc: Global, row: &KeptRow) -> Result<(), CommitFault>;
}

impl OpenRows for Connection<FileStore<File>> {
    fn prepare(&mut self, alloc: Global) -> Result<(), KeepFault> {
        prepare_rows(alloc, self)
    }

    fn load(&mut self, alloc: Global) -> Result<Vec<KeptRow>, KeepFault> {
        load_rows(alloc, self)
    }

    fn commit(&mut self, alloc: Global, row: &KeptRow) -> Result<(), CommitFault> {
        commit_row(alloc, self, row)
    }
}

/// A runtime that opens databases. SQLite opens a file for the host's runtime alone, so this trait stands for it. A caller
/// that sends a keeper to a thread asks that what is open can be sent, `where Rt::Rows: Send, Rt::Hold: Send`.
pub trait StoreRuntime {
    type Rows: OpenRows + Drop;

    /// What keeps an open database to this program, and lets it go.
    type Hold: Drop;

    /// Opens the database in the file at the path, if it is one that is wanted, and says which file it is. While another
    /// program has it open, this waits, for two seconds at most.
    fn open_store(
        &self,
        path: &str,
        wanted: Wanted,
    ) -> Result<(Self::Rows, Self::Hold, FileId), KeepFault>;

    /// Lets the database go, so that others find what was committed and commit themselves. Says whether it may be taken again;
    /// else it has to be closed.
    fn let_go(&self, hold: &mut Self::Hold) -> bool;

    /// Takes the database again that was let go. Says whether it is at the path, and as it was; else it has to be closed.
    /// While another program has it open, this waits, for two seconds at most.
    fn take_again(&self, path: &str, hold: &Self::Hold) -> Result<bool, KeepFault>;
}

impl StoreRuntime for HostRuntime {
    type Rows = Connection<FileStore<File>>;

    type Hold = Hold;

    fn open_store(
        &self,
        path: &str,
        wanted: Wanted,
    ) -> Result<(Connection<FileStore<File>>, Hold, FileId), KeepFault> {
        if !may_be_opened(self, path, wanted) {
            return Err(KeepFault::Failed);
        }
        let rows = opened(self, path).map_err(fault_of)?;
        match file_at(self, path) {
            Ok(file) if wanted.allows(file) => Ok((rows, held(self, path)?, file)),
            _ => Err(KeepFault::Failed),
        }
    }

    fn let_go(&self, hold: &mut Hold) -> bool {
        hold.let_go(self).is_ok()
    }

    fn take_again(&self, path: &str, hold: &Hold) -> Result<bool, KeepFault> {
        if is_locked(self, hold)? {
            Ok(hold.is_as_it_was(self, path).unwrap_or(false))
        } else {
            Err(KeepFault::Failed)
        }
    }
}

/// Opens the file once no other program has it open.
fn opened(rt: &HostRuntime, path: &str) -> Result<Connection<FileStore<File>>, Error> {
    for _ in 0..TRIES {
        match Connection::open(rt, path) {
            Err(Error::SqliteFailure(ErrorCode::DatabaseBusy)) => {
                thread::sleep(rt, Duration::from_millis(PAUSE_MILLIS));
            }
            answer => return answer,
        }
    }
    Err(Error::SqliteFailure(ErrorCode::DatabaseBusy))
}

fn held(rt: &HostRuntime, path: &str) -> Result<Hold, KeepFault> {
    match Hold::new(rt, path) {
        Ok(hold) => Ok(hold),
        Err(error) if error.kind() == ErrorKind::OutOfMemory => Err(KeepFault::NoMemory),
        Err(_) => Err(KeepFault::Failed),
    }
}

/// Locks the database once no other program has it open, and says whether that was so.
fn is_locked(rt: &HostRuntime, hold: &Hold) -> Result<bool, KeepFault> {
    for _ in 0..TRIES {
        match hold.try_lock() {
            Ok(true) => return Ok(true),
            Ok(false) => thread::sleep(rt, Duration::from_millis(PAUSE_MILLIS)),
            Err(_) => return Err(KeepFault::Failed),
        }
    }
    Ok(false)
}
