//! Whether two parts of a hold or of a task are equal.

ghost use Rattle.std.specs.Prelude.{◌≡◌, ◌↔◌, IsTrue};

use crate::lists::Fit;
use crate::parts::{Combined, Cumulative, Indices, Item, Lateral, Loose, Position};
use mass_units::Band;

/// Exact equality of all parts, which is what contracts mean by two values being equal.
pub trait Same {
    fn is_same(&self, other: &Self) -> bool
        ensures { IsTrue result ↔ (self.now ≡ other.now) };
}

/// Whether the lists have the same elements in the same order.
pub fn are_same<T: Same>(one: &[T], other: &[T]) -> bool
    ensures { IsTrue result ↔ (one.now ≡ other.now) }
{
    if one.len() != other.len() {
        return false;
    }
    for place in 0..one.len() {
        if !one[place].is_same(&other[place]) {
            return false;
        }
    }
    true
}

impl Same for (u8, u8) {
    fn is_same(&self, other: &(u8, u8)) -> bool {
        *self == *other
    }
}

impl Same for (u8, bool) {
    fn is_same(&self, other: &(u8, bool)) -> bool {
        *self == *other
    }
}

impl<T: Same> Same for Option<T> {
    fn is_same(&self, other: &Option<T>) -> bool {
        match (self, other) {
            (Some(one), Some(other)) => one.is_same(other),
            (None, None) => true,
            _ => false,
        }
    }
}

impl Same for Fit {
    fn is_same(&self, other: &Fit) -> bool {
        *self == *other
    }
}

impl Same for Position {
    fn is_same(&self, other: &Position) -> bool {
        self.name.bytes() == other.name.bytes()
            && self.compartment == other.compartment
            && self.influence == other.influence
            && self.bulk == other.bulk
            && are_same(self.fits.as_slice(), other.fits.as_slice())
    }
}

impl Same for Combined {
    fn is_same(&self, other: &Combined) -> bool {
        self.places.as_slice() == other.places.as_slice() && self.most == other.most
    }
}

impl Same for Cumulative {
    fn is_same(&self, other: &Cumulative) -> bool {
        *self == *other
    }
}

impl Same for Lateral {
    fn is_same(&self, other: &Lateral) -> bool {
        self.most == other.most && are_same(self.sides.as_slice(), other.sides.as_slice())
    }
}

impl Same for Item {
    fn is_same(&self, other: &Item) -> bool {
        self.id.bytes() == other.id.bytes() && self.mass == other.mass
    }
}

impl Same for Loose {
    fn is_same(&self, other: &Loose) -> bool {
        *self == *other
    }
}

impl Same for Band {
    fn is_same(&self, other: &Band) -> bool {
        *self == *other
    }
}

impl Same for Indices {
    fn is_same(&self, other: &Indices) -> bool {
        self.base == other.base
            && self.window.is_same(&other.window)
            && self.ideal.is_same(&other.ideal)
    }
}
