//! Which containers a position accepts, and which are interchangeable.

ghost use Rattle.std.specs.Prelude.{◌≡◌, ◌↔◌, IsTrue};
ghost use Rattle.hold_parts.specs.Accepting.{Accepts, accepts, has_kind};
ghost use Rattle.hold_parts.specs.Twins.{AreTwins, are_twins};

use crate::parts::{Item, Position};

impl Position {
    /// Whether the position takes containers of this one's kind, whatever its mass.
    pub fn accepts_kind(&self, item: &Item) -> bool
        ensures { result ≡ has_kind item.now self.now }
    {
        self.fits
            .as_slice()
            .iter()
            .any(|fit| fit.kind.as_slice() == item.id.kind())
    }

    /// Whether the position takes the container: its kind, and a mass of at least its own.
    pub fn accepts(&self, item: &Item) -> bool
        ensures value { result ≡ accepts item.now self.now }
        ensures meaning { IsTrue result ↔ Accepts item.now self.now }
    {
        self.fits.as_slice().iter().any(|fit| fit.kind.as_slice() == item.id.kind()
            && item.mass.0 <= fit.most.0)
    }
}

impl Item {
    /// Whether the two containers are of one kind and of one mass, so that each may stand in the other's place.
    pub fn is_twin_of(&self, other: &Item) -> bool
        ensures value { result ≡ are_twins self.now other.now }
        ensures meaning { IsTrue result ↔ AreTwins self.now other.now }
    {
        self.id.kind() == other.id.kind() && self.mass == other.mass
    }
}
