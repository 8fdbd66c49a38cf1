ghost use Rattle.std.specs.Prelude.{◌≡◌};
ghost use Rattle.text_lines.specs.declared.fault.LineFault.TheVariants.{NoMemory as out_of_memory};

use base_words::NoMemory;
use thiserror::Error;

/// Why the lines of a text are refused. Lines count from 1.
#[derive(Clone, Copy, Debug, PartialEq, Eq, Error)]
pub enum LineFault {
    /// The first line that is not allowed after the lines before it.
    #[error("line {0} is not allowed after the lines before it")]
    Line(usize),
    /// The text stops before the end of its last line.
    #[error("the text stops before the end of its last line")]
    NoEnd,
    /// There was no memory for what the lines say.
    #[error("out of memory")]
    NoMemory,
}

impl From<NoMemory> for LineFault {
    ghost from_gives = { λ _ fault. fault ≡ out_of_memory };

    fn from(_: NoMemory) -> LineFault {
        LineFault::NoMemory
    }
}
