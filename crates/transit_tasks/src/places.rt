//! What is wrong with the places of a message, tested in their order.

ghost use Rattle.std.specs.Prelude.{◌≡◌, ◌<◌, ◌&&◌, ◌==◌, nat_le, [], take, length, map, position, bytes_eq, IfSome};
ghost use Rattle.std.specs.List.{list_any};
ghost use Rattle.hold_parts.specs.Names.{number_named};
ghost use Rattle.hold_parts.specs.declared.lists.Fit.{Fit};
ghost use Rattle.hold_parts.specs.declared.parts.Item.{Item};
ghost use Rattle.hold_parts.specs.declared.parts.Loose.{Loose};
ghost use Rattle.hold_parts.specs.declared.parts.Position.{Position};
ghost use Rattle.hold_limits.specs.Enumeration.{exclude, is_accepted};
ghost use Rattle.hold_limits.specs.Faults.{is_bulk};
ghost use Rattle.ldm_cpm.specs.Reading.{placing_said};
ghost use Rattle.ldm_cpm.specs.declared.messages.CpmPlace.{CpmPlace};
ghost use Rattle.transit_tasks.specs.Staying.{place_number};
ghost use Rattle.transit_tasks.specs.TransitFaults.{is_wrong_kind, is_misplaced, is_unfit, clashes, is_offered, shares_bulk, place_fault, first_place_fault};

use crate::fault::TransitFault;
use hold_limits::{Hold, Item, Loose, Position, Task};
use ldm_cpm::CpmPlace;
use mass_units::Kg;

// Positions by their names --------------------------------------------------------------------------------------------

fn has_name(position: &Position, name: &[u8]) -> bool
    ensures { result ≡ bytes_eq position.now.name name.now }
{
    position.name.bytes() == name
}

/// The place of the first position with this name.
fn place_named(positions: &[Position], name: &[u8]) -> Option<usize>
    ensures place { result ≡ position (λ (p : Position). bytes_eq p.name name.now) positions.now }
    ensures within { IfSome result (λ at. at < length positions.now) }
{
    positions
        .iter()
        .position(|position| has_name(position, name))
}

/// The number of the position with this name.
#[tactic(auto, unfolding(hold_parts::specs::Names::number_named))]
fn number_named(hold: &Hold, name: &[u8]) -> Option<u8>
    ensures { result ≡ number_named hold.now.positions name.now }
{
    let place = place_named(hold.positions(), name)?;
    Some(place as u8)
}

/// The number of the place's position, and the number of positions where none has its name.
pub fn place_number(hold: &Hold, place: &CpmPlace<'_>) -> u8
    ensures { result ≡ place_number hold.now.positions (placing_said place.now) }
{
    match number_named(hold, place.name.text) {
        Some(number) => number,
        None => hold.position_count(),
    }
}

/// The number of the place's position in the hold of the task.
pub fn number_on(task: &Task, place: &CpmPlace<'_>) -> u8
    ensures { result ≡ place_number task.now.hold.positions (placing_said place.now) }
{
    place_number(task.hold(), place)
}

// The tests of a place ------------------------------------------------------------------------------------------------

fn is_bulk(hold: &Hold, number: u8) -> bool
    ensures { result ≡ is_bulk hold.now.positions number }
{
    hold.positions()
        .get(number as usize)
        .is_some_and(|position| position.bulk)
}

/// Whether a container would stand on a bulk position, or a loose load lie on another.
fn is_wrong_kind(task: &Task, place: &CpmPlace<'_>, number: u8) -> bool
    ensures { result ≡ is_wrong_kind task.now (placing_said place.now) number }
{
    let bulk = is_bulk(task.hold(), number);
    match place.id {
        Some(_) => bulk,
        None => !bulk,
    }
}

fn is_misplaced(task: &Task, place: &CpmPlace<'_>) -> bool
    ensures { result ≡ is_misplaced task.now (placing_said place.now) }
{
    match number_named(task.hold(), place.name.text) {
        Some(number) => is_wrong_kind(task, place, number),
        None => true,
    }
}

/// The kind of the container with this identity: its first three letters.
fn kind_of(id: &[u8]) -> &[u8]
    ensures { result.now ≡ take 3 id.now }
{
    if id.len() < 3 {
        return id;
    }
    &id[..3]
}

/// Whether the position takes a container of this kind and mass.
fn takes(position: &Position, kind: &[u8], mass: Kg) -> bool
    ensures { result ≡ list_any (λ (fit : Fit). bytes_eq fit.kind kind.now && nat_le mass.0 fit.most.0) position.now.fits }
{
    position
        .fits
        .as_slice()
        .iter()
        .any(|fit| fit.kind.as_slice() == kind && mass.0 <= fit.most.0)
}

/// Whether the position with this number takes a container of this identity and mass.
fn takes_at(hold: &Hold, number: u8, id: &[u8], mass: Kg) -> bool
    ensures { result ≡ is_accepted hold.now (record { id = id.now; mass = mass }, number) }
{
    match hold.positions().get(number as usize) {
        Some(position) => takes(position, kind_of(id), mass),
        None => false,
    }
}

fn is_unfit(task: &Task, place: &CpmPlace<'_>) -> bool
    ensures { result ≡ is_unfit task.now (placing_said place.now) }
{
    let number = number_on(task, place);
    match place.id {
        Some(id) => !takes_at(task.hold(), number, id.text, place.mass),
        None => false,
    }
}

/// Whether the place excludes the position with this number.
fn excludes(task: &Task, place: &CpmPlace<'_>, number: u8) -> bool
    ensures { result ≡ exclude task.now.hold (place_number task.now.hold.positions (placing_said place.now)) number }
{
    task.hold()
        .exclude_each_other(number_on(task, place), number)
}

/// Whether one of the places excludes the position with this number.
fn is_excluded(task: &Task, places: &[CpmPlace<'_>], number: u8) -> bool
    ensures { result ≡ list_any (λ (place : CpmPlace).
        exclude task.now.hold (place_number task.now.hold.positions (placing_said place)) number) places.now }
{
    places.iter().any(|place| excludes(task, place, number))
}

fn clashes(task: &Task, earlier: &[CpmPlace<'_>], place: &CpmPlace<'_>) -> bool
    ensures { result ≡ clashes task.now (map placing_said earlier.now) (placing_said place.now) }
{
    is_excluded(task, earlier, number_on(task, place))
}

/// Whether one of the containers has this identity.
fn has_id(items: &[Item], id: &[u8]) -> bool
    ensures { result ≡ list_any (λ (item : Item). bytes_eq item.id id.now) items.now }
{
    items.iter().any(|item| item.id.bytes() == id)
}

fn is_offered(task: &Task, place: &CpmPlace<'_>) -> bool
    ensures { result ≡ is_offered task.now (placing_said place.now) }
{
    match place.id {
        Some(id) => has_id(task.items(), id.text),
        None => false,
    }
}

/// Whether one of the loads lies on the position with this number.
fn is_loaded(loads: &[Loose], number: u8) -> bool
    ensures { result ≡ list_any (λ (load : Loose). load.position == number) loads.now }
{
    loads.iter().any(|load| load.position == number)
}

fn shares_bulk(task: &Task, place: &CpmPlace<'_>) -> bool
    ensures { result ≡ shares_bulk task.now (placing_said place.now) }
{
    match place.id {
        Some(_) => false,
        None => is_loaded(task.loose(), number_on(task, place)),
    }
}

// The first fault -----------------------------------------------------------------------------------------------------

/// What is wrong with the place behind these earlier ones.
fn place_fault(task: &Task, earlier: &[CpmPlace<'_>], place: &CpmPlace<'_>) -> Option<TransitFault>
    ensures { result ≡ place_fault task.now (map placing_said earlier.now) (placing_said place.now) }
{
    let at = earlier.len();
    if is_misplaced(task, place) {
        return Some(TransitFault::Place(at));
    }
    if is_unfit(task, place) {
        return Some(TransitFault::NoFit(at));
    }
    if clashes(task, earlier, place) {
        return Some(TransitFault::Clash(at));
    }
    if is_offered(task, place) {
        return Some(TransitFault::Offered(at));
    }
    if shares_bulk(task, place) {
        return Some(TransitFault::BulkShared(at));
    }
    None
}

/// What is wrong with the first wrong place.
pub fn first_place_fault(task: &Task, stay: &[CpmPlace<'_>]) -> Option<TransitFault>
    ensures { result ≡ first_place_fault task.now [] (map placing_said stay.now) }
{
    for at in 0..stay.len() {
        if let Some(fault) = place_fault(task, &stay[..at], &stay[at]) {
            return Some(fault);
        }
    }
    None
}
