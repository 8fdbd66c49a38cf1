//! The faults of rows.

ghost use Rattle.std.specs.Prelude.{◌≡◌};
ghost use Rattle.flight_row.specs.Refusals.{row_fault};
ghost use Rattle.flight_row.specs.declared.fault.RowFault.TheVariants.{NoMemory as out_of_memory};

use base_words::NoMemory;
use text_lines::LineFault;
use thiserror::Error;

/// Why a text is not read as the row of a flight. Lines count from 1.
#[derive(Clone, Copy, Debug, PartialEq, Eq, Error)]
pub enum RowFault {
    /// The first line that is not allowed after the lines before it.
    #[error("line {0} is not allowed after the lines before it")]
    Line(usize),
    /// The text stops before the end of its last line.
    #[error("the text stops before the end of its last line")]
    NoEnd,
    /// No aircraft of the fleet has the registration of the row.
    #[error("no aircraft of the fleet has the registration")]
    NoAircraft,
    /// Out of memory.
    #[error("out of memory")]
    NoMemory,
}

impl From<LineFault> for RowFault {
    ghost from_gives = { λ line fault. fault ≡ row_fault line };

    fn from(fault: LineFault) -> RowFault {
        match fault {
            LineFault::Line(number) => RowFault::Line(number),
            LineFault::NoEnd => RowFault::NoEnd,
            LineFault::NoMemory => RowFault::NoMemory,
        }
    }
}

impl From<NoMemory> for RowFault {
    ghost from_gives = { λ _ fault. fault ≡ out_of_memory };

    fn from(_: NoMemory) -> RowFault {
        RowFault::NoMemory
    }
}
