//! What a refusal of SQLite means to a keeper.

ghost use Rattle.std.specs.Prelude.{◌≡◌, ◌≢◌, ◌↔◌};

use keeper::KeepFault;
use sqlite::{Error, ErrorCode};

/// Out of memory, or a failure.
pub fn fault_of(error: Error) -> KeepFault
    ensures memory { (result ≡ KeepFault.NoMemory) ↔ (error ≡ Error.SqliteFailure ErrorCode.OutOfMemory) }
    ensures failure { (result ≡ KeepFault.Failed) ↔ (error ≢ Error.SqliteFailure ErrorCode.OutOfMemory) }
{
    match error {
        Error::SqliteFailure(ErrorCode::OutOfMemory) => KeepFault::NoMemory,
        _ => KeepFault::Failed,
    }
}

/// Why a row was not committed.
#[derive(Clone, Copy, Debug, PartialEq, Eq)]
pub enum CommitFault {
    /// The disk is full. What is open is as it was, and may be used again.
    DiskFull,
    /// Any other reason.
    Other(KeepFault),
}

impl CommitFault {
    pub(crate) fn of(error: Error) -> CommitFault {
        match error {
            Error::SqliteFailure(ErrorCode::DiskFull) => CommitFault::DiskFull,
            other => CommitFault::Other(fault_of(other)),
        }
    }
}

impl From<CommitFault> for KeepFault {
    fn from(fault: CommitFault) -> KeepFault {
        match fault {
            CommitFault::DiskFull => KeepFault::Failed,
            CommitFault::Other(fault) => fault,
        }
    }
}
