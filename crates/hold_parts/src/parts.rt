//! The parts of a hold and of a task.

use crate::lists::{Fits, Places, Sides};
use crate::texts::{Name, UldId};
use mass_units::{Band, Kg, Ticks};

/// A position of a hold.
#[derive(Clone, Debug, Drop)]
pub struct Position {
    pub name: Name,
    /// The compartment's number, one digit.
    pub compartment: u8,
    /// Ticks of the index for each kilogram on the position, positive towards the tail.
    pub influence: i32,
    /// Whether the position takes loose loads instead of containers.
    pub bulk: bool,
    pub fits: Fits,
}

/// The masses on the listed positions are together at most `most`.
#[derive(Clone, Debug, Drop)]
pub struct Combined {
    pub places: Places,
    pub most: Kg,
}

/// The masses on all positions up to and including `place` if `forward`, or else from `place` on, are together at
/// most `most`.
#[derive(Clone, Copy, Debug, PartialEq, Eq)]
pub struct Cumulative {
    pub forward: bool,
    pub place: u8,
    pub most: Kg,
}

/// The masses on the right and on the left differ by at most `most`. A position without a side counts for neither.
#[derive(Clone, Debug, Drop)]
pub struct Lateral {
    pub most: Kg,
    /// The positions to the right and to the left of the centre line.
    pub sides: Sides,
}

/// A container of the offer.
#[derive(Clone, Copy, Debug)]
pub struct Item {
    pub id: UldId,
    pub mass: Kg,
}

/// A loose load on a bulk position. The default only fills the unused slots of a list.
#[derive(Clone, Copy, Debug, PartialEq, Eq)]
pub struct Loose {
    pub position: u8,
    pub mass: Kg,
}

impl Default for Loose {
    fn default() -> Loose {
        Loose {
            position: 0,
            mass: Kg(0),
        }
    }
}

/// The indices of a task, in ticks: the take-off index is `base` and the hold index.
#[derive(Clone, Copy, Debug, PartialEq, Eq)]
pub struct Indices {
    pub base: Ticks,
    /// The window for the hold index.
    pub window: Band,
    /// The ideal band for the take-off index.
    pub ideal: Band,
}
