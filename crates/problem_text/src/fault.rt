ghost use Rattle.std.specs.Prelude.{◌≡◌};
ghost use Rattle.problem_text.specs.Reading.{text_fault};

use hold_limits::{HoldFault, TaskFault};
use text_lines::LineFault;
use thiserror::Error;

/// Why a text is not read as a task. Lines count from 1. Faults of a line come before those of the hold, and
/// those before the task's.
#[derive(Clone, Copy, Debug, PartialEq, Eq, Error)]
pub enum TextFault {
    /// The first line that no task has there, given the lines before it.
    #[error("line {0} is not a line of a task")]
    Line(usize),
    /// The text stops before the end of its line `END`.
    #[error("the text stops before the end of its line `END`")]
    NoEnd,
    /// The lines spell a hold with this fault.
    #[error("the hold is not lawful: {0}")]
    Hold(HoldFault),
    /// The lines spell a task with this fault.
    #[error("the task is not lawful: {0}")]
    Task(TaskFault),
    /// There was no memory for the task.
    #[error("out of memory")]
    NoMemory,
}

impl From<LineFault> for TextFault {
    ghost from_gives = { λ line fault. fault ≡ text_fault line };

    fn from(fault: LineFault) -> TextFault {
        match fault {
            LineFault::Line(number) => TextFault::Line(number),
            LineFault::NoEnd => TextFault::NoEnd,
            LineFault::NoMemory => TextFault::NoMemory,
        }
    }
}
