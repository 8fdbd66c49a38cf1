//! The lock that keeps a database of SQLite to one program.

use crate::place::{FileId, file_at};
use os::RangeLock;
use std::fs::{self, File};
use std::io;
use std::os::fd::AsRawFd;

/// The bytes on which SQLite has its pending, its reserved and its shared locks.
const FIRST_BYTE: u64 = 1 << 30;

const BYTES: u64 = 512;

/// The folder with a name for each descriptor of this process.
const DESCRIPTORS: &str = "/proc/self/fd";

fn last_error() -> io::Error {
    io::Error::from_raw_os_error(os::errno())
}

/// Locks the file for this open of it, unless another open of it has a lock: then this is not done.
pub(crate) fn try_lock(file: &File) -> io::Result<bool> {
    if os::try_lock_range(file.as_raw_fd(), RangeLock::Exclusive, FIRST_BYTE, BYTES) == 0 {
        return Ok(true);
    }
    let error = last_error();
    if error.kind() == io::ErrorKind::WouldBlock {
        Ok(false)
    } else {
        Err(error)
    }
}

/// Lets go of the lock that this descriptor's open of a file has.
pub(crate) fn unlock(descriptor: i32) -> io::Result<()> {
    if os::try_lock_range(descriptor, RangeLock::Unlock, FIRST_BYTE, BYTES) == 0 {
        Ok(())
    } else {
        Err(last_error())
    }
}

/// Whether no open of the file has a lock.
pub(crate) fn is_free(file: &File) -> io::Result<bool> {
    let is_taken = try_lock(file)?;
    if is_taken {
        unlock(file.as_raw_fd())?;
    }
    Ok(is_taken)
}

/// Lets go of the locks that descriptors of this process have on these files, whoever opened them.
pub(crate) fn unlock_all(rt: &HostRuntime, files: &[FileId]) -> io::Result<()> {
    for entry in fs::read_dir(rt, DESCRIPTORS)? {
        let entry = entry?;
        if is_one_of(rt, entry.path().as_str(), files) {
            unlock(number_of(entry.file_name())?)?;
        }
    }
    Ok(())
}

/// Whether the descriptor with this name is one of the files. One that was closed meanwhile is none.
fn is_one_of(rt: &HostRuntime, name: &str, files: &[FileId]) -> bool {
    match file_at(rt, name) {
        Ok(found) => files.contains(&found),
        Err(_) => false,
    }
}

fn number_of(name: &str) -> io::Result<i32> {
    match name.parse::<i32>() {
        Ok(number) => Ok(number),
        Err(_) => Err(io::ErrorKind::InvalidData.into()),
    }
}
