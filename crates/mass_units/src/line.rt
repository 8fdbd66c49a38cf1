//! Straight lines over masses, along which the edges of envelopes and fuel indices run.

ghost use Rattle.std.specs.Prelude.{◌<◌, ◌≤◌, ◌↔◌, ℤ, pos, ◌≡◌, ◌-◌, ◌-ℤ◌, ◌*ℤ◌, ◌≤ℤ◌, ◌+ℤ◌, FitsSigned, IsTrue};
ghost use Rattle.std.specs.Int.{w64};

use crate::wide::{difference, product, share_down};
use crate::{Kg, Ticks};

/// A mass and the index at it.
#[derive(Clone, Copy, Debug, PartialEq, Eq)]
pub struct Point {
    pub mass: Kg,
    pub index: Ticks,
}

/// A straight line from a mass to a greater one, with the index that it has at each.
#[derive(Clone, Copy, Debug, PartialEq, Eq)]
pub struct Line {
    /// The lesser mass.
    pub from: Kg,
    /// The index at it.
    pub at_from: Ticks,
    /// The greater mass.
    pub to: Kg,
    /// The index at it.
    pub at_to: Ticks,
}

impl Line {
    ghost use Rattle.mass_units.specs.Line.{IsOnOrAft, IsOnOrForward, IsFloor, Spans};
    ghost use Rattle.mass_units.specs.Polyline.{line_between};

    /// The line from one point to the next.
    pub fn between(start: Point, end: Point) -> Line
        ensures { result ≡ line_between start end }
    {
        Line {
            from: start.mass,
            at_from: start.index,
            to: end.mass,
            at_to: end.index,
        }
    }

    /// True where the mass lies between the line's ends, or at one of them.
    pub fn spans(&self, mass: Kg) -> bool
        ensures { IsTrue result ↔ Spans self.now mass.0 }
    {
        self.from <= mass && mass <= self.to
    }

    /// True where the index lies on the line at that mass, or aft of it.
    pub fn is_on_or_aft(&self, mass: Kg, index: Ticks) -> bool
        requires { Spans self.now mass.0 }
        ensures { IsTrue result ↔ IsOnOrAft self.now mass.0 index.0 }
    {
        self.rise_to(mass) <= self.rise_of(index)
    }

    /// True where the index lies on the line at that mass, or forward of it.
    pub fn is_on_or_forward(&self, mass: Kg, index: Ticks) -> bool
        requires { Spans self.now mass.0 }
        ensures { IsTrue result ↔ IsOnOrForward self.now mass.0 index.0 }
    {
        self.rise_of(index) <= self.rise_to(mass)
    }

    /// The line's index at that mass, rounded down: the aftmost tick that is not aft of the line.
    pub fn floor_at(&self, mass: Kg) -> Ticks
        requires rising { self.now.from.0 < self.now.to.0 }
        requires spans { Spans self.now mass.0 }
        ensures greatest { (z : ℤ) → IsOnOrForward self.now mass.0 z ↔ (z ≤ℤ result.0) }
        ensures floor { IsFloor self.now mass.0 result.0 }
    {
        let rise = share_down(
            difference(self.at_to.0, self.at_from.0),
            mass.0 - self.from.0,
            self.to.0 - self.from.0,
        );
        moved(self.at_from, rise)
    }

    /// The line's index at that mass, rounded up: the foremost tick that is not forward of the line.
    pub fn ceil_at(&self, mass: Kg) -> Ticks
        requires rising { self.now.from.0 < self.now.to.0 }
        requires spans { Spans self.now mass.0 }
        ensures { (z : ℤ) → IsOnOrAft self.now mass.0 z ↔ (result.0 ≤ℤ z) }
    {
        let fall = share_down(
            difference(self.at_from.0, self.at_to.0),
            mass.0 - self.from.0,
            self.to.0 - self.from.0,
        );
        moved(self.at_from, -fall)
    }

    /// How far the line rises to the mass, times its width in kilograms.
    fn rise_to(&self, mass: Kg) -> i128
        requires { Spans self.now mass.0 }
        ensures { result ≡ (self.now.at_to.0 -ℤ self.now.at_from.0) *ℤ pos (mass.0 - self.now.from.0) }
    {
        product(
            difference(self.at_to.0, self.at_from.0),
            mass.0 - self.from.0,
        )
    }

    /// How far the index lies above the line's start, times its width in kilograms.
    fn rise_of(&self, index: Ticks) -> i128
        requires { self.now.from.0 ≤ self.now.to.0 }
        ensures { result ≡ (index.0 -ℤ self.now.at_from.0) *ℤ pos (self.now.to.0 - self.now.from.0) }
    {
        product(difference(index.0, self.at_from.0), self.to.0 - self.from.0)
    }
}

fn moved(index: Ticks, by: i128) -> Ticks
    requires { FitsSigned w64 (index.0 +ℤ by) }
    ensures { result.0 ≡ index.0 +ℤ by }
{
    Ticks((i128::from(index.0) + by) as i64)
}
