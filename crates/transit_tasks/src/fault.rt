//! Why what came in cannot stay, or does not agree.

ghost use Rattle.std.specs.Prelude.{◌≡◌};
ghost use Rattle.transit_tasks.specs.declared.fault.TransitFault.TheVariants.{Task as of_task, NoMemory as out_of_memory};

use base_words::NoMemory;
use hold_limits::TaskFault;
use mass_units::Kg;
use thiserror::Error;

/// Why a load with what stays has no plan. Where several reasons hold, the first place counts, and of its reasons the
/// first in this order. Places are numbered from 0, in the order of the message.
#[derive(Clone, Copy, Debug, PartialEq, Eq, Error)]
pub enum TransitFault {
    /// The two messages are about different flights: flight, day, registration or version differ.
    #[error("the messages are about different flights")]
    Heads,
    /// The load message's total, and the sum of the container message's masses in kilograms, which differs.
    #[error("the load message has {} kg, the container message {} kg", .0.0, .1)]
    Totals(Kg, u64),
    /// No position has the place's name, or a container stands on a bulk position, or a loose load lies on another.
    #[error("place {0} is no such position of the hold")]
    Place(usize),
    /// The position does not accept the container's kind with its mass.
    #[error("the position of place {0} does not accept its container")]
    NoFit(usize),
    /// An earlier place excludes this one.
    #[error("place {0} is excluded by an earlier one")]
    Clash(usize),
    /// The offer has a container of the same identity.
    #[error("the container on place {0} is offered too")]
    Offered(usize),
    /// The task has a loose load on the same position.
    #[error("the task has a loose load on place {0} too")]
    BulkShared(usize),
    /// The task around what stays is not lawful: a loose load that stays is too heavy, or two places are of one
    /// position.
    #[error("{0}")]
    Task(TaskFault),
    /// Out of memory.
    #[error("out of memory")]
    NoMemory,
}

impl From<TaskFault> for TransitFault {
    ghost from_gives = { λ reason fault. fault ≡ of_task reason };

    fn from(reason: TaskFault) -> TransitFault {
        TransitFault::Task(reason)
    }
}

impl From<NoMemory> for TransitFault {
    ghost from_gives = { λ _ fault. fault ≡ out_of_memory };

    fn from(_: NoMemory) -> TransitFault {
        TransitFault::NoMemory
    }
}
