//! The loose loads of a flight, on the bulk positions that their figures name.

ghost use Rattle.std.specs.Prelude.{◌≡◌, ◌≤◌, ◌*◌, map, position, length, unsigned_abs, All, IfOk, IfSome};
ghost use Rattle.base_words.specs.Lists.{int_sum_by};
ghost use Rattle.hold_limits.specs.Placement.{loose_moment};
ghost use Rattle.trim.specs.Loads.{is_bulk_named, bulk_number, load_told, loose_mass};
ghost use Rattle.flight_state.specs.Effective.{IsLooseWithin};

use aircraft_file::Aircraft;
use base_words::NoMemory;
use hold_limits::{Hold, Loose, Position};
use mass_units::Kg;
use std::alloc::Global;
use trim::LooseFigure;

fn is_bulk_named(position: &Position, name: &[u8]) -> bool
    ensures { result ≡ is_bulk_named name.now position.now }
{
    position.bulk && position.name.bytes() == name
}

/// The place of the bulk position of this name.
fn place_named(positions: &[Position], name: &[u8]) -> Option<usize>
    ensures place { result ≡ position (is_bulk_named name.now) positions.now }
    ensures within { IfSome result (λ place. place ≤ length positions.now) }
{
    positions
        .iter()
        .position(|position| is_bulk_named(position, name))
}

/// The number of the bulk position of this name.
pub fn bulk_number(hold: &Hold, name: &[u8]) -> Option<u8>
    ensures { result ≡ bulk_number hold.now name.now }
{
    let place = place_named(hold.positions(), name)?;
    Some(place as u8)
}

/// The load that a figure tells of, its pieces at the average of a bag. One on no bulk position counts on position 0.
fn load_told(a: &Aircraft, figure: &LooseFigure) -> Loose
    requires { IsLooseWithin figure.now }
    ensures told { result ≡ load_told a.now figure.now }
    ensures light { result.mass.0 ≤ 1300000 }
{
    let bags = u32::from(figure.pieces) * a.averages().bag.0;
    Loose {
        position: bulk_number(a.hold(), figure.position.bytes()).unwrap_or(0),
        mass: Kg(figure.mass.0 + bags),
    }
}

/// The loads that the figures tell of, in their order.
pub fn loads_told(
    alloc: Global,
    a: &Aircraft,
    figures: &[LooseFigure],
) -> Result<Vec<Loose>, NoMemory>
    requires { All IsLooseWithin figures.now }
    ensures told { IfOk result (λ loads. loads.items ≡ map (load_told a.now) figures.now) }
    ensures light { IfOk result (λ loads. All (λ (load : Loose). load.mass.0 ≤ 1300000) loads.items) }
{
    let mut loads = Vec::new(alloc);
    for figure in figures {
        loads.push(load_told(a, figure))?;
    }
    Ok(loads)
}

/// The mass of all loads, in kilograms.
pub fn mass_of_loads(loads: &[Loose]) -> u32
    requires few { length loads.now ≤ 64 }
    requires light { All (λ (load : Loose). load.mass.0 ≤ 1300000) loads.now }
    ensures sum { result ≡ loose_mass loads.now }
    ensures bounded { result ≤ 83200000 }
{
    let mut mass = 0;
    for load in loads {
        mass += load.mass.0;
    }
    mass
}

/// Mass times influence of a load, in ticks.
fn index_of_load(hold: &Hold, load: &Loose) -> i64
    requires { load.now.mass.0 ≤ 1300000 }
    ensures index { result ≡ loose_moment hold.now load.now }
    ensures bounded { unsigned_abs result ≤ 2791728742400000 }
{
    i64::from(load.mass.0) * i64::from(hold.influence_at(load.position))
}

/// Mass times influence of all loads, in ticks.
pub fn index_of_loads(hold: &Hold, loads: &[Loose]) -> i64
    requires few { length loads.now ≤ 64 }
    requires light { All (λ (load : Loose). load.mass.0 ≤ 1300000) loads.now }
    ensures sum { result ≡ int_sum_by (loose_moment hold.now) loads.now }
    ensures bounded { unsigned_abs result ≤ 64 * 2791728742400000 }
{
    let mut index = 0;
    for load in loads {
        index += index_of_load(hold, load);
    }
    index
}
