//! The load of a cabin, and the mass of a loose load.

ghost use Rattle.std.specs.Option.{SomeIff};
ghost use Rattle.std.specs.Prelude.{IfOk, unsigned_abs, ◌*◌, ◌<◌, ◌^◌, ◌↔◌, ◌≡◌, ◌≤◌};
ghost use Rattle.payload.specs.Load.{FitsLoad, cabin_index, cabin_mass, load_of, loose_mass_of, most_loose, zone_index, zone_mass};
ghost use Rattle.payload.specs.PayFault.{HasZones, IsFirstFault, first_overfull, is_overfull};
ghost use Rattle.payload.specs.declared.figures.PayFault.{PayFault};

use crate::cabin::Cabin;
use crate::figures::{Averages, Load, PayFault, Zone, ZoneCount};
use mass_units::{Kg, Ticks};

/// The greatest mass of a loose load, in kilograms.
pub const MOST_LOOSE: u64 = 20_000;

/// The load of a cabin: its mass, its index and its passengers.
///
/// It fails if a count has no zone, if a zone has too few seats for its adults and children, or if infants
/// outnumber the adults of the whole cabin. The first of these that holds is the fault, and there is no
/// other. The precondition holds by a wide margin for 16 zones with 999 passengers of each kind, at
/// averages of up to 300 kilograms.
pub fn cabin_load(cabin: &Cabin, zones: &[Zone], averages: &Averages) -> Result<Load, PayFault>
    requires { HasZones zones.now cabin.now → FitsLoad averages.now cabin.now }
    ensures load { IfOk result (λ load. load ≡ load_of averages.now zones.now cabin.now) }
    ensures refused { (fault : PayFault) →
        (result ≡ Err fault) ↔ IsFirstFault zones.now cabin.now fault }
{
    let counts = cabin.as_slice();
    if counts.len() > zones.len() {
        return Err(PayFault::ZoneUnknown(zones.len() + 1));
    }
    if let Some((number, capacity)) = first_overfull(counts, zones) {
        return Err(PayFault::ZoneFull(number, capacity));
    }
    let load = load_of(counts, zones, averages);
    if load.infants > load.adults {
        return Err(PayFault::InfantsOverAdults);
    }
    Ok(load)
}

/// The mass of a loose load: what was weighed, and its pieces at the average of a bag. None if that is over
/// `MOST_LOOSE`.
pub fn loose_mass(mass: Kg, pieces: u16, averages: &Averages) -> Option<Kg>
    ensures { let total = loose_mass_of mass.0 pieces averages.now in
        SomeIff result (total ≤ most_loose) (record { 0 = total }) }
{
    let total = u64::from(mass.0) + u64::from(pieces) * u64::from(averages.bag.0);
    if total <= MOST_LOOSE {
        Some(Kg(total as u32))
    } else {
        None
    }
}

/// The first zone with more adults and children than seats: its number, from 1, and its seats.
fn first_overfull(counts: &[ZoneCount], zones: &[Zone]) -> Option<(usize, u16)>
    ensures { result ≡ first_overfull zones.now counts.now }
{
    counts
        .iter()
        .zip(zones)
        .enumerate()
        .find(|(_, (count, zone))| count.is_over(zone))
        .map(|(at, (_, zone))| (at + 1, zone.capacity))
}

fn load_of(counts: &[ZoneCount], zones: &[Zone], averages: &Averages) -> Load
    requires { FitsLoad averages.now counts.now }
    ensures { result ≡ load_of averages.now zones.now counts.now }
{
    Load {
        mass: Kg(counts.iter().map(|count| count.mass(averages)).sum::<u64>() as u32),
        index: Ticks(cabin_index(counts, zones, averages)),
        adults: counts.iter().map(|count| u32::from(count.adults)).sum(),
        children: counts.iter().map(|count| u32::from(count.children)).sum(),
        infants: counts.iter().map(|count| u32::from(count.infants)).sum(),
    }
}

fn cabin_index(counts: &[ZoneCount], zones: &[Zone], averages: &Averages) -> i64
    requires { cabin_mass averages.now counts.now < 2 ^ 32 }
    ensures { result ≡ cabin_index averages.now zones.now counts.now }
{
    let mut index = 0;
    for (count, zone) in counts.iter().zip(zones) {
        index += count.index(zone, averages);
    }
    index
}

impl ZoneCount {
    /// Whether adults and children are more than the seats.
    fn is_over(&self, zone: &Zone) -> bool
        ensures { result ≡ is_overfull self.now zone.now }
    {
        u32::from(self.adults) + u32::from(self.children) > u32::from(zone.capacity)
    }

    fn mass(&self, averages: &Averages) -> u64
        ensures value { result ≡ zone_mass averages.now self.now }
        ensures bound { result < 2 ^ 50 }
    {
        u64::from(self.adults) * u64::from(averages.adult.0)
            + u64::from(self.children) * u64::from(averages.child.0)
            + u64::from(self.infants) * u64::from(averages.infant.0)
    }

    /// The index of a zone with these passengers, in ticks.
    fn index(&self, zone: &Zone, averages: &Averages) -> i64
        requires { zone_mass averages.now self.now < 2 ^ 32 }
        ensures value { result ≡ zone_index averages.now (self.now, zone.now) }
        ensures bound { unsigned_abs result ≤ 2 ^ 31 * zone_mass averages.now self.now }
    {
        self.mass(averages) as i64 * i64::from(zone.influence)
    }
}
