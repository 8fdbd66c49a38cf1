//! The faults of late changes.

ghost use Rattle.std.specs.Prelude.{◌≡◌};
ghost use Rattle.last_minute.specs.declared.fault.LmcFault.TheVariants.{NoMemory as out_of_memory};

use base_words::NoMemory;
use mass_units::{Kg, Ticks};
use payload::PayFault;
use std::alloc::AllocError;
use thiserror::Error;
use trim::Rules;

/// Why a late change is refused. The first reason in this order is named.
#[derive(Debug, Drop, Error)]
pub enum LmcFault {
    /// Ten late changes are there already.
    #[error("there are ten late changes already")]
    TooMany,
    /// The aircraft has no such zone or bulk position, or the change takes a number below zero or past its limit.
    #[error("the change cannot be made to what is there")]
    NotThere,
    /// The cabin has a fault with the change.
    #[error("{0}")]
    Pay(PayFault),
    /// All late changes together change the zero-fuel mass by this much, up or down, which is over the tolerance.
    #[error("the late changes change the zero-fuel mass by {0:?}")]
    MassOver(Kg),
    /// All late changes together change the zero-fuel index by this much, up or down, which is over the tolerance.
    #[error("the late changes change the zero-fuel index by {0:?}")]
    IndexOver(Ticks),
    /// The flight breaks these rules with the change.
    #[error("the flight breaks {0:?} with the change")]
    Breaks(Rules),
    /// Out of memory.
    #[error("out of memory")]
    NoMemory,
}

impl From<NoMemory> for LmcFault {
    ghost from_gives = { λ _ fault. fault ≡ out_of_memory };

    fn from(_: NoMemory) -> LmcFault {
        LmcFault::NoMemory
    }
}

impl From<AllocError> for LmcFault {
    ghost from_gives = { λ _ fault. fault ≡ out_of_memory };

    fn from(_: AllocError) -> LmcFault {
        LmcFault::NoMemory
    }
}
