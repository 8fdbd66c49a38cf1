//! How a run ends.

use base_words::NoMemory;
use thiserror::Error;

/// Why a job has no answer.
#[derive(Debug, Drop)]
pub enum Halt {
    /// A file is refused, with this line.
    BadInput(Vec<u8>),
    /// A file could not be read.
    ReadFault,
    NoMemory,
}

impl From<NoMemory> for Halt {
    ghost use Rattle.std.specs.Prelude.{◌≡◌};
    ghost use Rattle.plan_commands.specs.declared.ending.Halt.TheVariants as variant;

    ghost from_gives = { λ _ halt. halt ≡ variant.NoMemory };

    fn from(_refused: NoMemory) -> Halt {
        Halt::NoMemory
    }
}

/// Why no reply was printed, or not the whole of it.
#[derive(Clone, Copy, Debug, PartialEq, Eq, Error)]
pub enum Stop {
    #[error("the file could not be read")]
    ReadFault,
    #[error("the output could not be written")]
    WriteFault,
    #[error("out of memory")]
    NoMemory,
}

impl From<NoMemory> for Stop {
    ghost use Rattle.std.specs.Prelude.{◌≡◌};
    ghost use Rattle.plan_commands.specs.declared.ending.Stop.TheVariants as variant;

    ghost from_gives = { λ _ stop. stop ≡ variant.NoMemory };

    fn from(_refused: NoMemory) -> Stop {
        Stop::NoMemory
    }
}
