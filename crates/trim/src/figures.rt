//! The figures of a flight.

ghost use Rattle.std.specs.Prelude.{◌≡◌, IfOk};

use crate::lists::{Items, LooseList};
use base_words::NoMemory;
use hold_limits::Name;
use mass_units::{Kg, Ticks};
use payload::Cabin;
use std::alloc::Global;

/// The aircraft with its crew and its equipment, without traffic load and fuel.
#[derive(Clone, Copy, Debug, PartialEq, Eq)]
pub struct Dry {
    pub mass: Kg,
    pub index: Ticks,
    /// How many of the crew are in the cockpit. They are part of the mass.
    pub cockpit: u8,
    /// How many of the crew are in the cabin.
    pub attendants: u8,
}

/// The fuel of a flight.
#[derive(Clone, Copy, Debug, PartialEq, Eq)]
pub struct Fuel {
    /// Burned between the stand and the runway.
    pub taxi: Kg,
    /// On board at lift-off.
    pub take_off: Kg,
    /// The part of the take-off fuel that the trip burns.
    pub trip: Kg,
}

/// The greatest masses of the day.
#[derive(Clone, Copy, Debug, PartialEq, Eq)]
pub struct Regulated {
    pub take_off: Kg,
    pub landing: Kg,
}

/// A loose load as it is told: the name of its bulk position, what was weighed, and the pieces that were counted.
#[derive(Clone, Copy, Debug)]
pub struct LooseFigure {
    pub position: Name,
    pub mass: Kg,
    pub pieces: u16,
}

/// What is known of a flight before its hold is planned.
#[derive(Clone, Debug, Drop)]
pub struct Figures {
    pub dry: Dry,
    pub fuel: Fuel,
    pub regulated: Regulated,
    pub cabin: Cabin,
    pub containers: Items,
    pub loose: LooseList,
}

impl Figures {
    /// The same figures, in memory of their own.
    pub fn copy(&self, _alloc: Global) -> Result<Figures, NoMemory>
        ensures { IfOk result (λ copy. copy ≡ self.now) }
    {
        Ok(self.clone()?)
    }
}
