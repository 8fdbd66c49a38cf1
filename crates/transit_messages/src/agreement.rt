//! What two inbound messages say together.

ghost use Rattle.std.specs.Prelude.{◌≡◌, ◌≢◌, ◌≤◌, ◌↔◌, Err, IsOk, IfOk, IsTrue, length};
ghost use Rattle.mass_units.specs.Spelling.{IsNumber};
ghost use Rattle.ldm_cpm.specs.Messages.{total};
ghost use Rattle.ldm_cpm.specs.Reading.{heading_of};
ghost use Rattle.transit_tasks.specs.declared.fault.TransitFault.{TransitFault};
ghost use Rattle.transit_messages.specs.Agreement.{stays, staying_at, mass_of_places};

use base_words::NoMemory;
use ldm_cpm::{Cpm, CpmPlace, Head, Ldm};
use mass_units::Kg;
use std::alloc::Global;
use transit_tasks::TransitFault;

/// Whether the heads name the same flight, day, registration and version.
fn are_of_one_flight(one: &Head<'_>, other: &Head<'_>) -> bool
    ensures { IsTrue result ↔ (heading_of one.now ≡ heading_of other.now) }
{
    one.flight.text == other.flight.text
        && one.day.text == other.day.text
        && one.registration.text == other.registration.text
        && one.version.text == other.version.text
}

/// The mass in all compartments, in kilograms.
fn mass_of_loads(loads: &[(u8, Kg)]) -> u128
    ensures { result ≡ total loads.now }
{
    let mut sum = 0;
    for load in loads {
        sum += u128::from(load.1.0);
    }
    sum
}

/// The mass on all places, in kilograms.
fn mass_of_places(places: &[CpmPlace<'_>]) -> u64
    requires { length places.now ≤ 64 }
    ensures { result ≡ mass_of_places places.now }
{
    let mut sum = 0;
    for place in places {
        sum += u64::from(place.mass.0);
    }
    sum
}

/// Whether the two messages are about one flight, and have one mass in all. Takes no memory.
pub fn agree(ldm: &Ldm<'_>, cpm: &Cpm<'_>) -> Result<(), TransitFault>
    requires loads { IsNumber (total ldm.now.loads) }
    requires places { length cpm.now.places ≤ 64 }
    ensures same { IsOk result ↔ ((heading_of ldm.now.head ≡ heading_of cpm.now.head)
        × (total ldm.now.loads ≡ mass_of_places cpm.now.places)) }
    ensures heads { (result ≡ Err TransitFault.Heads) ↔ (heading_of ldm.now.head ≢ heading_of cpm.now.head) }
    ensures totals { heading_of ldm.now.head ≡ heading_of cpm.now.head
        → total ldm.now.loads ≢ mass_of_places cpm.now.places
        → result ≡ Err (TransitFault.Totals (record { 0 = total ldm.now.loads }) (mass_of_places cpm.now.places)) }
{
    if !are_of_one_flight(&ldm.head, &cpm.head) {
        return Err(TransitFault::Heads);
    }
    let total = mass_of_loads(ldm.loads.as_slice());
    let sum = mass_of_places(cpm.places.as_slice());
    if total == u128::from(sum) {
        Ok(())
    } else {
        Err(TransitFault::Totals(Kg(total as u32), sum))
    }
}

/// Whether there is something on the place that goes on behind this station.
fn stays(place: &CpmPlace<'_>, station: &[u8]) -> bool
    ensures { result ≡ stays station.now place.now }
{
    match &place.destination {
        Some(destination) => destination.text != station,
        None => false,
    }
}

/// The places of the message with something that goes on behind this station, in order. They borrow from the message.
pub fn staying<'a>(
    alloc: Global,
    cpm: &Cpm<'a>,
    station: &[u8],
) -> Result<Vec<CpmPlace<'a>>, NoMemory>
    ensures { IfOk result (λ places. places.items ≡ staying_at station.now cpm.now.places) }
{
    let places = cpm.places.as_slice().iter().copied();
    Ok(places.filter(|place| stays(place, station)).collect(alloc)?)
}
