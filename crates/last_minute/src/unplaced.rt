//! What late changes can change: the passengers and the loose loads of a flight.

ghost use Rattle.std.specs.Prelude.{◌≡◌, ◌+◌, ◌*◌, ◌≤◌, ◌+ℤ◌, length, unsigned_abs, All, IfOk};
ghost use Rattle.base_words.specs.Lists.{int_sum_by};
ghost use Rattle.hold_limits.specs.Placement.{loose_moment};
ghost use Rattle.payload.specs.Load.{zone_mass, zone_index, cabin_mass, cabin_index};
ghost use Rattle.trim.specs.Limits.{HasFewPassengers};
ghost use Rattle.trim.specs.Loads.{loose_loads, loose_mass};
ghost use Rattle.aircraft_file.specs.Lawful.{AreAverages, IsZone};
ghost use Rattle.flight_state.specs.Effective.{IsLooseWithin};

use crate::loads::{index_of_loads, loads_told, mass_of_loads};
use aircraft_file::Aircraft;
use base_words::NoMemory;
use payload::{Averages, Zone, ZoneCount};
use std::alloc::Global;
use trim::Figures;

/// What the passengers and the loose loads of a flight weigh, and their index.
#[derive(Clone, Copy, Debug)]
pub struct Unplaced {
    /// Kilograms.
    pub mass: u32,
    /// Ticks.
    pub index: i64,
}

/// What the passengers and the loose loads of a flight weigh, whether or not its cabin has a fault.
pub fn weigh_unplaced(alloc: Global, a: &Aircraft, f: &Figures) -> Result<Unplaced, NoMemory>
    requires zones { length f.now.cabin ≤ 16 }
    requires passengers { All HasFewPassengers f.now.cabin }
    requires few { length f.now.loose ≤ 64 }
    requires loose { All IsLooseWithin f.now.loose }
    ensures mass { IfOk result (λ load.
        load.mass ≡ cabin_mass a.now.averages f.now.cabin + loose_mass (loose_loads a.now f.now)) }
    ensures index { IfOk result (λ load. load.index ≡ cabin_index a.now.averages a.now.zones f.now.cabin
        +ℤ int_sum_by (loose_moment a.now.hold) (loose_loads a.now f.now)) }
    ensures light { IfOk result (λ load. load.mass ≤ 100000000) }
    ensures near { IfOk result (λ load. unsigned_abs load.index ≤ 1000000000000000000) }
{
    let counts = f.cabin.as_slice();
    let loads = loads_told(alloc, a, f.loose.as_slice())?;
    Ok(Unplaced {
        mass: mass_of_counts(counts, a.averages()) + mass_of_loads(loads.as_slice()),
        index: index_of_counts(counts, a.zones(), a.averages())
            + index_of_loads(a.hold(), loads.as_slice()),
    })
}

/// The mass of the passengers of a zone, each at the average of their kind.
fn mass_of_count(count: &ZoneCount, averages: &Averages) -> u32
    requires few { HasFewPassengers count.now }
    requires light { AreAverages averages.now }
    ensures mass { result ≡ zone_mass averages.now count.now }
    ensures bounded { result ≤ 899100 }
{
    u32::from(count.adults) * averages.adult.0
        + u32::from(count.children) * averages.child.0
        + u32::from(count.infants) * averages.infant.0
}

fn mass_of_counts(counts: &[ZoneCount], averages: &Averages) -> u32
    requires zones { length counts.now ≤ 16 }
    requires few { All HasFewPassengers counts.now }
    requires light { AreAverages averages.now }
    ensures mass { result ≡ cabin_mass averages.now counts.now }
    ensures bounded { result ≤ 14385600 }
{
    let mut mass = 0;
    for count in counts {
        mass += mass_of_count(count, averages);
    }
    mass
}

/// The index of the passengers of a zone: their mass times its influence, in ticks.
fn index_of_count(count: &ZoneCount, zone: &Zone, averages: &Averages) -> i64
    requires few { HasFewPassengers count.now }
    requires near { IsZone zone.now }
    requires light { AreAverages averages.now }
    ensures index { result ≡ zone_index averages.now (count.now, zone.now) }
    ensures bounded { unsigned_abs result ≤ 89910000000 }
{
    i64::from(mass_of_count(count, averages)) * i64::from(zone.influence)
}

fn index_of_counts(counts: &[ZoneCount], zones: &[Zone], averages: &Averages) -> i64
    requires zones { length counts.now ≤ 16 }
    requires few { All HasFewPassengers counts.now }
    requires near { All IsZone zones.now }
    requires light { AreAverages averages.now }
    ensures index { result ≡ cabin_index averages.now zones.now counts.now }
    ensures bounded { unsigned_abs result ≤ 16 * 89910000000 }
{
    let mut index = 0;
    for (count, zone) in counts.iter().zip(zones) {
        index += index_of_count(count, zone, averages);
    }
    index
}
