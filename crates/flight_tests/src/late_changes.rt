// The worked day: a late change of its released flight, and its sheet.
ghost use Rattle.std.specs.Prelude.{IfOk};
ghost use Rattle.last_minute.specs.Planned.{HasBalance};

use aircraft_file::Aircraft;
use hold_limits::Name;
use last_minute::{FlightState, Lmc, Place, Sheet, apply_lmc, read_row, sheet_of};
use mass_units::Kg;
use std::alloc::{AllocError, Global};
use std::test::Fail;
use std::{slice, str};
use worked_day::{ROW, aircraft};

/// The worked flight.
fn flight_of(alloc: Global, aircraft: &Aircraft) -> Result<FlightState, Fail>
    ensures { IfOk result (HasBalance aircraft.now) }
{
    let flight = read_row(alloc, slice::from_ref(aircraft), ROW.as_bytes())?;
    if flight.plan.is_none() {
        return Err(Fail::new("the flight has a plan"));
    }
    Ok(flight)
}

fn bulk(mass: i32) -> Result<Lmc, Fail> {
    match Name::read(b"51") {
        Some(position) => Ok(Lmc::Loose {
            position,
            mass,
            pieces: 0,
        }),
        None => Err(Fail::new("51 is a name")),
    }
}

/// By how many kilograms the only late change changes a load.
fn only_mass(changes: &[Lmc]) -> Option<i32> {
    match changes {
        [Lmc::Loose { mass, .. }] => Some(*mass),
        _ => None,
    }
}

/// The edition and the only change of a flight.
fn text_of_flight(alloc: Global, flight: &FlightState) -> Result<String, AllocError> {
    let mass = only_mass(flight.lmcs.as_slice());
    format!(in alloc; "edition {}, {mass:?} kg", flight.edition)
}

/// What a late change makes of the worked flight, or why it is refused.
fn said_of(alloc: Global, aircraft: &Aircraft, change: &Lmc) -> Result<String, Fail> {
    let flight = flight_of(alloc, aircraft)?;
    match apply_lmc(alloc, aircraft, &flight, change) {
        Ok(next) => Ok(text_of_flight(alloc, &next)?),
        Err(fault) => Ok(format!(in alloc; "{fault}")?),
    }
}

/// What is said where the load of the bulk position changes by these kilograms.
fn said_with(alloc: Global, mass: i32) -> Result<String, Fail> {
    let change = bulk(mass)?;
    let aircraft = aircraft(alloc)?;
    said_of(alloc, &aircraft, &change)
}

#[test]
fn a_late_change_is_accepted_up_to_the_tolerance(rt: HostRuntime) -> Result<(), Fail> {
    assert_eq!(rt;
        said_with(rt.alloc(), 500)?.as_str(),
        "edition 8, Some(500) kg"
    );
    assert_eq!(rt;
        said_with(rt.alloc(), 501)?.as_str(),
        "the late changes change the zero-fuel mass by Kg(501)"
    );
    Ok(())
}

/// The mass on the last position, where that is a bulk position.
fn last_bulk(places: &[Place]) -> Option<Kg> {
    match places.last() {
        Some(place) if place.bulk => Some(place.mass),
        _ => None,
    }
}

/// How many positions a sheet has, and the mass on the last one, a bulk position.
fn places_of(sheet: &Sheet) -> (usize, Option<Kg>) {
    let places = sheet.places.as_slice();
    (places.len(), last_bulk(places))
}

/// Figures of a sheet: its version, the masses of its cabin, containers and loose loads, its centres of gravity, and its
/// positions.
fn figures_of(alloc: Global, sheet: &Sheet) -> Result<String, Fail> {
    let version = str::from_utf8(sheet.version.bytes())?;
    let masses = (sheet.cabin_mass, sheet.container_mass, sheet.loose_mass);
    let places = places_of(sheet);
    Ok(format!(in alloc; "{version} {masses:?} {:?} {places:?}", sheet.mac)?)
}

/// The sheet of the worked flight.
fn worked_sheet(alloc: Global, aircraft: &Aircraft) -> Result<Sheet, Fail> {
    let flight = flight_of(alloc, aircraft)?;
    Ok(sheet_of(alloc, aircraft, &flight)?)
}

/// Its figures.
fn sheet_text(alloc: Global) -> Result<String, Fail> {
    let aircraft = aircraft(alloc)?;
    let sheet = worked_sheet(alloc, &aircraft)?;
    figures_of(alloc, &sheet)
}

#[test]
fn the_sheet_of_the_worked_flight(rt: HostRuntime) -> Result<(), Fail> {
    assert_eq!(rt;
        sheet_text(rt.alloc())?.as_str(),
        "Y150 (Kg(10460), Kg(1800), Kg(320)) [2579, 2523, 2574] (5, Some(Kg(320)))"
    );
    Ok(())
}
