//! The units of the load control office: whole kilograms, and index ticks of 1/100000 index unit. With
//! their texts, the straight lines from mass to index along which limits run, and the centre of gravity
//! in percent of the mean aerodynamic chord.
#![tactic(auto)]

ghost use Rattle.std.specs.Prelude.{◌+◌, ◌<◌, ◌^◌, ◌+ℤ◌, FitsSigned};
ghost use Rattle.std.specs.Int.{w64};
ghost use Rattle.std.specs.Option.{SomeIff};

mod chord;
mod line;
mod polyline;
mod spelling;
mod wide;

pub use chord::{Chord, mac_hundredths};
pub use line::{Line, Point};
pub use polyline::{Lines, ToPoint, first_fall};
pub use spelling::{
    NumFault, has_plain_front, read_long_number, read_number, read_signed, read_ticks5,
    write_number, write_signed, write_ticks2, write_ticks5,
};

/// A mass in whole kilograms.
#[derive(Clone, Copy, Debug, PartialEq, Eq, PartialOrd, Ord)]
pub struct Kg(pub u32);

/// An index, or a difference of two, in ticks of 1/100000 index unit. A larger index lies further aft.
#[derive(Clone, Copy, Debug, PartialEq, Eq, PartialOrd, Ord)]
pub struct Ticks(pub i64);

/// The indices from `low` to `high`, both among them. There is none where `low` is greater than `high`.
#[derive(Clone, Copy, Debug, PartialEq, Eq)]
pub struct Band {
    pub low: Ticks,
    pub high: Ticks,
}

impl Kg {
    /// The sum of both masses. None on overflow.
    pub fn plus(self, other: Kg) -> Option<Kg>
        ensures { SomeIff result (self.0 + other.0 < 2 ^ 32) (record { 0 = self.0 + other.0 }) }
    {
        Some(Kg(self.0.checked_add(other.0)?))
    }
}

impl Ticks {
    /// The sum of both indices. None on overflow.
    pub fn plus(self, other: Ticks) -> Option<Ticks>
        ensures { SomeIff result (FitsSigned w64 (self.0 +ℤ other.0)) (record { 0 = self.0 +ℤ other.0 }) }
    {
        Some(Ticks(self.0.checked_add(other.0)?))
    }
}
