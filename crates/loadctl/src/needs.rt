//! What a run needs that its arguments name, so that it is made first.

use thiserror::Error;

/// What a run needs besides its shelf, its input and its output.
#[derive(Clone, Copy, Debug, PartialEq, Eq)]
pub struct Needs {
    /// How many doors.
    pub doors: u8,
    /// The port of the first door. 0 if there is none.
    pub port: u16,
    /// The place among the arguments of the name of the file that keeps the rows. None if no file does.
    pub store: Option<usize>,
}

impl Needs {
    /// What invalid arguments need: no door, and no file for rows.
    pub const NONE: Needs = Needs {
        doors: 0,
        port: 0,
        store: None,
    };
}

/// Why arguments name nothing to make.
#[derive(Clone, Copy, Debug, PartialEq, Eq, Error)]
pub enum WordFault {
    #[error("the arguments are invalid")]
    Usage,
    #[error("out of memory")]
    NoMemory,
}
