//! What positions accept and where they lie, as lists.

use base_words::ListOf;
use mass_units::Kg;

/// A kind of container that a position accepts, three capitals, with the greatest mass of one.
#[derive(Clone, Copy, Debug, PartialEq, Eq)]
pub struct Fit {
    pub kind: [u8; 3],
    pub most: Kg,
}

/// What a position accepts, in the order in which it was given.
pub type Fits = ListOf<Fit>;

/// Numbers of positions.
pub type Places = ListOf<u8>;

/// Positions with their sides: a position's number, and whether it is on the right.
pub type Sides = ListOf<(u8, bool)>;
