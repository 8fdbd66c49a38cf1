//! The limits that the figures of a flight keep.

ghost use Rattle.std.specs.Prelude.{◌≤◌, ◌↔◌, unsigned_abs, length, All, IsTrue};
ghost use Rattle.trim.specs.Limits.{HasFewPassengers};

use crate::figures::{Dry, Figures, Fuel};
use hold_limits::Item;
use payload::ZoneCount;

const MOST_MASS: u32 = 1_000_000;

const MOST_INDEX: u64 = 1_000_000_000;

const MOST_PASSENGERS: u16 = 999;

const MOST_LOADS: usize = 64;

impl Figures {
    ghost use Rattle.trim.specs.Limits.{KeepsLimits};

    /// Whether the figures are within the limits that no fault tests: masses of containers, of the dry aircraft and of
    /// fuel up to 1,000,000 kg, a dry index within 10,000 index units, trip fuel that is on board, at most 999
    /// passengers of a kind in a zone, and at most 64 containers and 64 loose loads.
    pub fn keeps_limits(&self) -> bool
        ensures { IsTrue result ↔ KeepsLimits self.now }
    {
        if !is_dry_within(&self.dry) {
            return false;
        }
        if !is_fuel_within(&self.fuel) {
            return false;
        }
        if !are_counts_within(self.cabin.as_slice()) {
            return false;
        }
        are_items_within(self.containers.as_slice()) && self.loose.as_slice().len() <= MOST_LOADS
    }
}

fn is_dry_within(dry: &Dry) -> bool
    ensures { IsTrue result ↔ ((dry.now.mass.0 ≤ 1000000) × (unsigned_abs dry.now.index.0 ≤ 1000000000)) }
{
    dry.mass.0 <= MOST_MASS && dry.index.0.unsigned_abs() <= MOST_INDEX
}

fn is_fuel_within(fuel: &Fuel) -> bool
    ensures { IsTrue result ↔ ((fuel.now.taxi.0 ≤ 1000000) × (fuel.now.take_off.0 ≤ 1000000)
        × (fuel.now.trip.0 ≤ fuel.now.take_off.0)) }
{
    fuel.taxi.0 <= MOST_MASS && fuel.take_off.0 <= MOST_MASS && fuel.trip.0 <= fuel.take_off.0
}

fn is_count_within(count: &ZoneCount) -> bool
    ensures { IsTrue result ↔ HasFewPassengers count.now }
{
    count.adults <= MOST_PASSENGERS
        && count.children <= MOST_PASSENGERS
        && count.infants <= MOST_PASSENGERS
}

fn are_counts_within(counts: &[ZoneCount]) -> bool
    ensures { IsTrue result ↔ All HasFewPassengers counts.now }
{
    counts.iter().all(is_count_within)
}

fn are_items_within(items: &[Item]) -> bool
    ensures { IsTrue result ↔ ((length items.now ≤ 64) × All (λ item. item.mass.0 ≤ 1000000) items.now) }
{
    items.len() <= MOST_LOADS && items.iter().all(|item| item.mass.0 <= MOST_MASS)
}
