//! The figures that the load of a cabin is computed from, and the load.

use mass_units::{Kg, Ticks};
use thiserror::Error;

/// A zone of the aircraft's cabin.
#[derive(Clone, Copy, Debug, PartialEq, Eq)]
pub struct Zone {
    /// The number of seats.
    pub capacity: u16,
    /// Ticks per kilogram.
    pub influence: i32,
}

/// The operator's average masses (AC 120-27F).
#[derive(Clone, Copy, Debug, PartialEq, Eq)]
pub struct Averages {
    pub adult: Kg,
    pub child: Kg,
    pub infant: Kg,
    /// A piece of loose load.
    pub bag: Kg,
}

/// The passengers of one zone. Infants sit on an adult's lap and take no seat.
#[derive(Clone, Copy, Debug, PartialEq, Eq)]
pub struct ZoneCount {
    pub adults: u16,
    pub children: u16,
    pub infants: u16,
}

/// The load of a cabin.
#[derive(Clone, Copy, Debug, PartialEq, Eq)]
pub struct Load {
    pub mass: Kg,
    pub index: Ticks,
    pub adults: u32,
    pub children: u32,
    pub infants: u32,
}

/// What is wrong with a cabin. Zones are numbered from 1.
#[derive(Clone, Copy, Debug, PartialEq, Eq, Error)]
pub enum PayFault {
    /// The cabin has a count for a zone that the aircraft does not have: the first such zone.
    #[error("the aircraft has no zone {0}")]
    ZoneUnknown(usize),
    /// A zone has more adults and children than seats: the first such zone, and its seats.
    #[error("zone {0} has more adults and children than its {1} seats")]
    ZoneFull(usize, u16),
    /// The cabin has more infants than adults to hold them.
    #[error("the cabin has more infants than adults")]
    InfantsOverAdults,
}
