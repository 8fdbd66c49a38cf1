//! The corners of a side of an envelope.

use mass_units::{Kg, Point, Ticks, ToPoint};

/// A corner of an envelope: where its side bends, or begins, or ends.
#[derive(Clone, Copy, Debug, PartialEq, Eq)]
pub struct Corner {
    pub mass: Kg,
    pub index: Ticks,
}

impl ToPoint for Corner {
    ghost use Rattle.envelope.specs.Edges.{point_of};

    ghost point = { point_of };

    fn to_point(&self) -> Point {
        Point {
            mass: self.mass,
            index: self.index,
        }
    }
}
