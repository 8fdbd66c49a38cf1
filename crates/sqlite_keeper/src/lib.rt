//! A keeper whose rows are in a file of SQLite: one table, with the key of a flight and the bytes of its row.
//!
//! The statements work on any connection, so that they are tested on disks in memory that stop. [`SqliteKeeper`] has its file
//! for a call and lets it go behind it. That the file then holds what it was given is tested and not proved.
#![tactic(auto)]

mod fault;
mod hold;
mod lock;
mod log_end;
mod place;
mod rows;
mod runtime;
mod store;

pub use fault::CommitFault;
pub use hold::Hold;
pub use place::{FileId, Wanted};
pub use rows::{commit_row, load_rows, prepare_rows};
pub use runtime::{OpenRows, StoreRuntime};
pub use store::SqliteKeeper;
