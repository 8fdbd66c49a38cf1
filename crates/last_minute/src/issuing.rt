//! The sheet of a flight whose hold is planned.

ghost use Rattle.std.specs.Prelude.{◌≡◌, ◌≤◌, ◌<◌, length, All, IfOk};
ghost use Rattle.hold_parts.specs.declared.parts.Item.{Item};
ghost use Rattle.payload.specs.Load.{load_of};
ghost use Rattle.flight_state.specs.Effective.{effective};
ghost use Rattle.trim.specs.Balance.{IsBalance};
ghost use Rattle.trim.specs.Limits.{KeepsLimits};
ghost use Rattle.trim.specs.Loads.{container_mass};
ghost use Rattle.trim.specs.Refusals.{CanBeWeighed, HasCabin};
ghost use Rattle.last_minute.specs.Planned.{HasBalance};
ghost use Rattle.last_minute.specs.Sheets.{IsSheet, AreCentres};

use crate::loads::{loads_told, mass_of_loads};
use crate::places::places_of;
use crate::sheet::Sheet;
use aircraft_file::Aircraft;
use base_words::NoMemory;
use flight_state::{FlightState, effective_figures};
use hold_limits::{Item, Path};
use mass_units::{Chord, Kg, mac_hundredths};
use payload::{Load, cabin_load};
use std::alloc::Global;
use trim::{Balance, Figures, state_of};

/// The sheet of a flight. All its figures are those with the late changes.
pub fn sheet_of(alloc: Global, a: &Aircraft, s: &FlightState) -> Result<Sheet, NoMemory>
    requires { HasBalance a.now s.now }
    ensures { IfOk result (IsSheet a.now s.now) }
{
    let figures = effective_figures(alloc, s)?;
    sheet_with(alloc, a, s, &figures)
}

/// The sheet of a flight, whose figures with the late changes are these.
fn sheet_with(
    alloc: Global,
    a: &Aircraft,
    s: &FlightState,
    figures: &Figures,
) -> Result<Sheet, NoMemory>
    requires balance { HasBalance a.now s.now }
    requires figures { figures.now ≡ effective s.now }
    ensures { IfOk result (IsSheet a.now s.now) }
{
    let Some(path) = &s.plan else {
        unreachable!();
    };
    let balance = balance_of(a, figures, path);
    let cabin = cabin_of(a, figures);
    let loads = loads_told(alloc, a, figures.loose.as_slice())?;
    Ok(Sheet {
        leg: s.leg,
        version: *a.version(),
        edition: s.edition,
        dry: figures.dry,
        fuel: figures.fuel,
        regulated: figures.regulated,
        max_zero_fuel: a.certified().zero_fuel,
        adults: cabin.adults,
        children: cabin.children,
        infants: cabin.infants,
        cabin_mass: cabin.mass,
        container_mass: Kg(mass_of_containers(figures.containers.as_slice())),
        loose_mass: Kg(mass_of_loads(loads.as_slice())),
        balance,
        mac: centres_of(&balance, a.chord()),
        places: places_of(alloc, a, figures, path, loads.as_slice())?,
        lmcs: s.lmcs.clone()?,
    })
}

/// The balance of a flight that has one.
fn balance_of(a: &Aircraft, f: &Figures, path: &Path) -> Balance
    requires limits { KeepsLimits f.now }
    requires complete { length path.now.items ≡ length f.now.containers }
    requires weighed { CanBeWeighed a.now f.now }
    ensures { IsBalance a.now f.now path.now.items result }
{
    match state_of(a, f, path) {
        Ok(balance) => balance,
        Err(_) => unreachable!(),
    }
}

/// The load of a cabin without a fault.
fn cabin_of(a: &Aircraft, f: &Figures) -> Load
    requires limits { KeepsLimits f.now }
    requires cabin { HasCabin a.now f.now }
    ensures { result ≡ load_of a.now.averages a.now.zones f.now.cabin }
{
    match cabin_load(&f.cabin, a.zones(), a.averages()) {
        Ok(load) => load,
        Err(_) => unreachable!(),
    }
}

fn mass_of_containers(items: &[Item]) -> u32
    requires few { length items.now ≤ 64 }
    requires light { All (λ (item : Item). item.mass.0 ≤ 1000000) items.now }
    ensures { result ≡ container_mass items.now }
{
    let mut mass = 0;
    for item in items {
        mass += item.mass.0;
    }
    mass
}

/// The centres of gravity of zero fuel, take-off and landing, in hundredths of a percent of the chord.
fn centres_of(balance: &Balance, chord: &Chord) -> [i128; 3]
    requires zero_fuel { 0 < balance.now.masses.zero_fuel.0 }
    requires take_off { 0 < balance.now.masses.take_off.0 }
    requires landing { 0 < balance.now.masses.landing.0 }
    requires chord { 0 < chord.now.mac_mm }
    ensures { AreCentres chord.now balance.now result }
{
    [
        mac_hundredths(balance.zero_fuel, balance.masses.zero_fuel, chord),
        mac_hundredths(balance.take_off, balance.masses.take_off, chord),
        mac_hundredths(balance.landing, balance.masses.landing, chord),
    ]
}
