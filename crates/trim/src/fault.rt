//! The faults of a flight's figures.

use hold_limits::TaskFault;
use mass_units::Kg;
use payload::PayFault;
use thiserror::Error;

/// Why the figures of a flight make no loading task, or have no balance.
#[derive(Clone, Copy, Debug, PartialEq, Eq, Error)]
pub enum TrimFault {
    /// The fuel table does not have this mass of fuel: that of take-off, or else that of landing.
    #[error("the fuel table does not have {0:?} of fuel")]
    FuelOut(Kg),
    /// The cabin has a fault.
    #[error("{0}")]
    Pay(PayFault),
    /// No bulk position has the name of the loose load at this place, counted from 0, or its mass is over 20,000 kg.
    #[error("loose load {0} has no bulk position, or is over 20000 kg")]
    LooseName(usize),
    /// No index is inside the envelope at the flight's mass: 1 zero-fuel, 2 take-off, 3 landing.
    #[error("no index is inside envelope {0} at the mass of the flight")]
    NoWindow(usize),
    /// The parts make no task.
    #[error("{0}")]
    Task(TaskFault),
    /// Out of memory.
    #[error("out of memory")]
    NoMemory,
}
