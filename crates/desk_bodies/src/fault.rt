//! The faults of bodies.

ghost use Rattle.std.specs.Prelude.{◌≡◌};
ghost use Rattle.desk_bodies.specs.declared.fault.BodyFault.TheVariants.{NoMemory as out_of_memory};

use base_words::NoMemory;
use thiserror::Error;

/// Why a body is not read.
#[derive(Clone, Copy, Debug, PartialEq, Eq, Error)]
pub enum BodyFault {
    /// It does not have the form of its request.
    #[error("the body does not have the form of its request")]
    Form,
    /// Out of memory.
    #[error("out of memory")]
    NoMemory,
}

impl From<NoMemory> for BodyFault {
    ghost from_gives = { λ _ fault. fault ≡ out_of_memory };

    fn from(_: NoMemory) -> BodyFault {
        BodyFault::NoMemory
    }
}
