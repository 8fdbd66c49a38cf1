//! The loose loads of a flight, on the bulk positions that their figures name.

ghost use Rattle.std.specs.Prelude.{◌≡◌, ◌<◌, ◌≤◌, map, position, length, if◌then◌else◌, Some, None, IfSome, IfOk, IfErr, ℕ};
ghost use Rattle.trim.specs.Loads.{is_bulk_named, bulk_number, is_no_load, load_told, loose_mass};

use crate::fault::TrimFault;
use crate::figures::LooseFigure;
use aircraft_file::Aircraft;
use arrayvec::ArrayVec;
use hold_limits::{Hold, Loose, Position};
use payload::loose_mass;

/// The loose loads of a flight, in the order of its figures.
pub type LooseLoads = ArrayVec<Loose, 64>;

fn is_bulk_named(position: &Position, name: &[u8]) -> bool
    ensures { result ≡ is_bulk_named name.now position.now }
{
    position.bulk && position.name.bytes() == name
}

/// The place of the bulk position of this name.
fn place_named(positions: &[Position], name: &[u8]) -> Option<usize>
    ensures place { result ≡ position (is_bulk_named name.now) positions.now }
    ensures within { IfSome result (λ place. place < length positions.now) }
{
    positions
        .iter()
        .position(|position| is_bulk_named(position, name))
}

/// The number of the bulk position of this name.
fn bulk_number(hold: &Hold, name: &[u8]) -> Option<u8>
    ensures { result ≡ bulk_number hold.now name.now }
{
    let place = place_named(hold.positions(), name)?;
    Some(place as u8)
}

/// The load that a figure tells of. None where no bulk position has its name, or where its mass is over 20,000 kg.
fn load_told(a: &Aircraft, figure: &LooseFigure) -> Option<Loose>
    ensures { result ≡ (if is_no_load a.now figure.now then None else Some (load_told a.now figure.now)) }
{
    let position = bulk_number(a.hold(), figure.position.bytes())?;
    let mass = loose_mass(figure.mass, figure.pieces, a.averages())?;
    Some(Loose { position, mass })
}

/// The loads that the figures tell of, or the place of the first figure that is none.
pub fn loose_loads(a: &Aircraft, figures: &[LooseFigure]) -> Result<LooseLoads, TrimFault>
    requires { length figures.now ≤ 64 }
    ensures loads { IfOk result (λ loads. loads.items ≡ map (load_told a.now) figures.now) }
    ensures light { IfOk result (λ loads. loose_mass loads.items ≤ 1280000) }
    ensures all { IfOk result (λ loads. position (is_no_load a.now) figures.now ≡ None) }
    ensures refused { IfErr result (λ fault. (at : ℕ) × (fault ≡ TrimFault.LooseName at)
        × (position (is_no_load a.now) figures.now ≡ Some at)) }
{
    let mut loads = ArrayVec::new();
    for (at, figure) in figures.iter().enumerate() {
        match load_told(a, figure) {
            Some(load) => loads.push(load),
            None => return Err(TrimFault::LooseName(at)),
        }
    }
    Ok(loads)
}
