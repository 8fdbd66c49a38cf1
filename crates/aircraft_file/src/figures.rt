//! The plain figures of an aircraft, as the sections of its file group them.

use crate::texts::{Registration, Version};
use mass_limits::Certified;
use mass_units::{Band, Chord, Kg, Ticks};
use payload::Averages;

/// The aircraft with its equipment and no crew, load or fuel, as the operator's default.
#[derive(Clone, Copy, Debug)]
pub struct Dry {
    pub mass: Kg,
    pub index: Ticks,
}

/// The most by which the late changes of a flight may change its figures, up or down.
#[derive(Clone, Copy, Debug)]
pub struct Tolerance {
    pub mass: Kg,
    pub index: Ticks,
}

/// The figures of an aircraft that are not lists.
#[derive(Debug, Drop)]
pub struct Figures {
    pub registration: Registration,
    pub version: Version,
    pub dry: Dry,
    pub chord: Chord,
    pub certified: Certified,
    pub tolerance: Tolerance,
    /// The ideal band of the take-off index.
    pub ideal: Band,
    pub averages: Averages,
}
