//! The centre of gravity in percent of the mean aerodynamic chord.

ghost use Rattle.std.specs.Prelude.{◌+◌, ◌*◌, ◌<◌, ◌≤◌, pos, ◌*ℤ◌, ◌^◌, ◌≡◌, ◌-ℤ◌, unsigned_abs};
ghost use Rattle.mass_units.specs.Rounding.{IsRounded};
ghost use Rattle.mass_units.specs.PercentMac.{moment_behind_lemac};

use crate::wide::{difference, product, rounded};
use crate::{Kg, Ticks};

/// Where an aircraft's index and its mean aerodynamic chord (MAC) lie. Lengths are millimetres aft of
/// the datum.
#[derive(Clone, Copy, Debug, PartialEq, Eq)]
pub struct Chord {
    /// The index of a mass whose centre of gravity is at the reference station.
    pub k: Ticks,
    /// Kilogram metres of moment in one index unit.
    pub c: u32,
    /// The reference station, about which the index counts moments.
    pub reference_mm: i32,
    /// The leading edge of the chord.
    pub lemac_mm: i32,
    /// The length of the chord.
    pub mac_mm: u32,
}

/// The centre of gravity in hundredths of a percent of the mean aerodynamic chord, by the formula of
/// FAA-H-8083-1B: its distance behind the leading edge of the chord, divided by the chord's length. The
/// distance is the moment about the leading edge divided by the mass. Ahead of the leading edge it is
/// negative. A half is rounded away from zero.
pub fn mac_hundredths(index: Ticks, mass: Kg, chord: &Chord) -> i128
    requires mass { 0 < mass.0 }
    requires chord { 0 < chord.now.mac_mm }
    ensures { IsRounded (pos 100 *ℤ moment_behind_lemac index mass chord.now) (mass.0 * chord.now.mac_mm) result }
{
    let length = u64::from(mass.0) * u64::from(chord.mac_mm);
    rounded(100 * moment(index, mass, chord), length)
}

/// The moment about the leading edge of the chord, in hundredths of a kilogram millimetre.
fn moment(index: Ticks, mass: Kg, chord: &Chord) -> i128
    ensures value { result ≡ moment_behind_lemac index mass chord.now }
    ensures bound { unsigned_abs result < 2 ^ 110 }
{
    let units = difference(index.0, chord.k.0);
    let distance = difference(i64::from(chord.reference_mm), i64::from(chord.lemac_mm));
    product(units, chord.c) + 100 * product(distance, mass.0)
}
