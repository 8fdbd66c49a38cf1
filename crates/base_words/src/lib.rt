//! What every crate of the desk shares and no type owns: out of memory as an answer of its own, short texts in place,
//! lists in fields, and the words in which contracts speak of faults and of lists.
#![tactic(auto)]

mod letters;
mod list_of;
mod spelling;

pub use letters::Letters;
pub use list_of::ListOf;
pub use spelling::{are_capitals, are_capitals_or_digits, are_digits, is_capital, is_word};
use std::alloc::{AllocError, AllocFailed};
use thiserror::Error;

/// Out of memory.
#[derive(Clone, Copy, Debug, PartialEq, Eq, Error)]
#[error("out of memory")]
pub struct NoMemory;

impl From<AllocError> for NoMemory {
    fn from(_refused: AllocError) -> NoMemory {
        NoMemory
    }
}

impl<T: Drop> From<AllocFailed<T>> for NoMemory {
    fn from(_refused: AllocFailed<T>) -> NoMemory {
        NoMemory
    }
}
