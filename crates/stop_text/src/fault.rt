ghost use Rattle.std.specs.Prelude.{◌≡◌};
ghost use Rattle.stop_text.specs.StopRefusals.{stop_text_fault};

use base_words::NoMemory as OutOfMemory;
use problem_text::TextFault;
use stop_tasks::StopFault;
use text_lines::LineFault;
use thiserror::Error;

/// Why a text is not read as a load over several sectors. Lines and sectors count from 1. Faults of a line come before
/// those of a task, and those before the faults of the load.
#[derive(Clone, Copy, Debug, PartialEq, Eq, Error)]
pub enum StopTextFault {
    /// The first line that is not allowed after the lines before it.
    #[error("line {0} is not allowed after the lines before it")]
    Line(usize),
    /// The text stops before the end of its last task.
    #[error("the text stops before the end of its last task")]
    NoEnd,
    /// The task of this sector, the first one, has this fault.
    #[error("sector {0}: {1}")]
    Task(usize, TextFault),
    /// The tasks are lawful, and with what else the lines say they are no load.
    #[error("the load is not lawful: {0}")]
    Stop(StopFault),
    /// Out of memory.
    #[error("out of memory")]
    NoMemory,
}

impl From<LineFault> for StopTextFault {
    ghost from_gives = { λ line fault. fault ≡ stop_text_fault line };

    fn from(fault: LineFault) -> StopTextFault {
        match fault {
            LineFault::Line(number) => StopTextFault::Line(number),
            LineFault::NoEnd => StopTextFault::NoEnd,
            LineFault::NoMemory => StopTextFault::NoMemory,
        }
    }
}

impl From<OutOfMemory> for StopTextFault {
    ghost use Rattle.stop_text.specs.declared.fault.StopTextFault.TheVariants.{NoMemory as out_of_memory};

    ghost from_gives = { λ _ fault. fault ≡ out_of_memory };

    fn from(_: OutOfMemory) -> StopTextFault {
        StopTextFault::NoMemory
    }
}
