//! Why a text is not a message of its kind.

use base_words::NoMemory;
use telex::TelexFault;
use thiserror::Error;

/// Why a text is not a message of its kind. Where several reasons hold, the first in this order is given.
#[derive(Clone, Copy, Debug, PartialEq, Eq, Error)]
pub enum MsgFault {
    /// The text is not a telex.
    #[error("{0}")]
    Telex(TelexFault),
    /// The number, counted from 1, of the first line that is wrong. Where a line is missing, it is the one behind the last.
    #[error("line {0} is wrong or missing")]
    Line(usize),
    /// Out of memory.
    #[error("out of memory")]
    NoMemory,
}

impl From<TelexFault> for MsgFault {
    ghost use Rattle.std.specs.Prelude.{◌≡◌};
    ghost use Rattle.ldm_cpm.specs.declared.fault.MsgFault.TheVariants.{Telex};

    ghost from_gives = { λ reason fault. fault ≡ Telex reason };

    fn from(reason: TelexFault) -> MsgFault {
        MsgFault::Telex(reason)
    }
}

impl From<NoMemory> for MsgFault {
    ghost use Rattle.std.specs.Prelude.{◌≡◌};
    ghost use Rattle.ldm_cpm.specs.declared.fault.MsgFault.TheVariants.{NoMemory as out_of_memory};

    ghost from_gives = { λ _ fault. fault ≡ out_of_memory };

    fn from(_: NoMemory) -> MsgFault {
        MsgFault::NoMemory
    }
}
