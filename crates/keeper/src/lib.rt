//! What keeps the rows of flights: one row of bytes under each key.
//!
//! A keeper stands outside the program. It exposes its tables where they are in memory, and keeps them hidden where they
//! are in a file. It counts its failures, so that nobody can say that it failed where it did not.
#![tactic(auto)]

mod failing;
mod keeper;
mod memory;
mod row;
mod rows;

pub use failing::FailingKeeper;
pub use keeper::{KeepFault, Keeper};
pub use memory::MemoryKeeper;
pub use row::{Bytes, KeptRow};
