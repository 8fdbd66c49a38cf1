//! The parts of the task around what stays.

ghost use Rattle.std.specs.Prelude.{◌≡◌, ◌≤◌, ◌++◌, [], ◌∷◌, length, None, filter, map, IfOk};
ghost use Rattle.std.specs.List.{list_any, enumerate_from};
ghost use Rattle.hold_limits.specs.Faults.{hold_fault};
ghost use Rattle.hold_limits.specs.Layout.{layout_of, with_lateral};
ghost use Rattle.ldm_cpm.specs.Reading.{placing_said};
ghost use Rattle.ldm_cpm.specs.declared.messages.CpmPlace.{CpmPlace};
ghost use Rattle.transit_tasks.specs.Staying.{staying_containers};
ghost use Rattle.transit_tasks.specs.NewTask.{is_closed_by, is_closed, closed, position_around, positions_around, is_open_pair, excludes_around, hold_around, loads_around};

use crate::places::{number_on, place_number};
use base_words::NoMemory;
use hold_limits::{Fits, Hold, Lateral, Loose, Position, Task};
use ldm_cpm::CpmPlace;
use std::alloc::Global;

// Closed positions ----------------------------------------------------------------------------------------------------

/// Whether a container stands on the place, and its position is the one with this number or excludes it.
fn is_closed_by(hold: &Hold, place: &CpmPlace<'_>, number: u8) -> bool
    ensures { result ≡ is_closed_by hold.now number (placing_said place.now) }
{
    let own = place_number(hold, place);
    match place.id {
        Some(_) => own == number || hold.exclude_each_other(own, number),
        None => false,
    }
}

/// Whether one of the places closes the position with this number.
fn is_closed_by_any(hold: &Hold, stay: &[CpmPlace<'_>], number: u8) -> bool
    ensures { result ≡ list_any (λ (place : CpmPlace). is_closed_by hold.now number (placing_said place)) stay.now }
{
    stay.iter().any(|place| is_closed_by(hold, place, number))
}

/// Whether a container that stays closes the position with this number for the offer.
fn is_closed(hold: &Hold, stay: &[CpmPlace<'_>], number: u8) -> bool
    ensures { result ≡ is_closed hold.now (staying_containers hold.now.positions (map placing_said stay.now)) number }
{
    is_closed_by_any(hold, stay, number)
}

/// The same position, which takes loose loads alone.
fn closed(alloc: Global, position: &Position) -> Position
    ensures { result ≡ closed position.now }
{
    Position {
        name: position.name,
        compartment: position.compartment,
        influence: position.influence,
        bulk: true,
        fits: Fits::from(Vec::new(alloc)),
    }
}

/// The position with this number, closed where what stays closes it.
fn position_around(
    alloc: Global,
    hold: &Hold,
    stay: &[CpmPlace<'_>],
    number: u8,
    position: &Position,
) -> Result<Position, NoMemory>
    ensures { IfOk result (λ around. around ≡ position_around hold.now
        (staying_containers hold.now.positions (map placing_said stay.now)) (number, position.now)) }
{
    if is_closed(hold, stay, number) {
        return Ok(closed(alloc, position));
    }
    Ok(position.clone()?)
}

// The hold ------------------------------------------------------------------------------------------------------------

/// These positions, which are those of the hold, each closed where what stays closes it.
fn positions_around(
    alloc: Global,
    hold: &Hold,
    stay: &[CpmPlace<'_>],
    positions: &[Position],
) -> Result<Vec<Position>, NoMemory>
    requires { length positions.now ≤ 64 }
    ensures { IfOk result (λ around. around.items ≡ map (position_around hold.now
        (staying_containers hold.now.positions (map placing_said stay.now))) (enumerate_from 0 positions.now)) }
{
    let mut around = Vec::new(alloc);
    for (number, position) in positions.iter().enumerate() {
        let next = position_around(alloc, hold, stay, number as u8, position)?;
        around.push(next)?;
    }
    Ok(around)
}

/// Whether both positions of an excluding pair are still open to the offer.
fn is_open_pair(hold: &Hold, stay: &[CpmPlace<'_>], pair: (u8, u8)) -> bool
    ensures { result ≡ is_open_pair hold.now (staying_containers hold.now.positions (map placing_said stay.now)) pair }
{
    !is_closed(hold, stay, pair.0) && !is_closed(hold, stay, pair.1)
}

/// The excluding pair is appended if it is still one.
fn push_if_open(
    hold: &Hold,
    stay: &[CpmPlace<'_>],
    pair: &(u8, u8),
    around: &mut Vec<(u8, u8)>,
) -> Result<(), NoMemory>
    ensures { IfOk result (λ _. around.new.items ≡ around.old.items ++ filter
        (is_open_pair hold.now (staying_containers hold.now.positions (map placing_said stay.now))) (pair.now ∷ [])) }
{
    if is_open_pair(hold, stay, *pair) {
        around.push(*pair)?;
    }
    Ok(())
}

/// The excluding pairs without a closed position.
fn excludes_around(
    alloc: Global,
    hold: &Hold,
    stay: &[CpmPlace<'_>],
) -> Result<Vec<(u8, u8)>, NoMemory>
    ensures { IfOk result (λ around. around.items ≡ excludes_around hold.now
        (staying_containers hold.now.positions (map placing_said stay.now))) }
{
    let excludes = hold.excludes();
    let mut around = Vec::new(alloc);
    for pair in excludes {
        push_if_open(hold, stay, pair, &mut around)?;
    }
    Ok(around)
}

/// The hold around what stays, without its lateral limit.
fn bare_hold_around(alloc: Global, hold: &Hold, stay: &[CpmPlace<'_>]) -> Result<Hold, NoMemory>
    ensures { IfOk result (λ around. around ≡ layout_of
        (positions_around hold.now (staying_containers hold.now.positions (map placing_said stay.now)))
        (excludes_around hold.now (staying_containers hold.now.positions (map placing_said stay.now)))
        hold.now.combined hold.now.cumulative) }
{
    let positions = positions_around(alloc, hold, stay, hold.named_positions())?;
    let excludes = excludes_around(alloc, hold, stay)?;
    let combined = hold.combined().to_vec(alloc)?;
    let cumulative = hold.cumulative().to_vec(alloc)?;
    match Hold::new(positions, excludes, combined, cumulative) {
        Ok(around) => Ok(around),
        Err(_) => unreachable!(),
    }
}

/// The hold with the positions closed that what stays takes from the offer.
pub fn hold_around(alloc: Global, hold: &Hold, stay: &[CpmPlace<'_>]) -> Result<Hold, NoMemory>
    ensures { IfOk result (λ around. around ≡ hold_around hold.now
        (staying_containers hold.now.positions (map placing_said stay.now))) }
{
    let around = bare_hold_around(alloc, hold, stay)?;
    match hold.lateral() {
        Some(lateral) => under_lateral(around, lateral),
        None => Ok(around),
    }
}

/// The hold under this lateral limit, which it can have.
fn under_lateral(hold: Hold, lateral: &Lateral) -> Result<Hold, NoMemory>
    requires most { lateral.now.most.0 ≤ 999999999 }
    requires right { hold_fault (with_lateral hold lateral.now) ≡ None }
    ensures { IfOk result (λ under. under ≡ with_lateral hold lateral.now) }
{
    match hold.with_lateral(lateral.clone()?) {
        Ok(under) => Ok(under),
        Err(_) => unreachable!(),
    }
}

// The loose loads -----------------------------------------------------------------------------------------------------

/// The loose loads of the task, and then what stays, each as a loose load on its position.
pub fn loads_around(
    alloc: Global,
    task: &Task,
    stay: &[CpmPlace<'_>],
) -> Result<Vec<Loose>, NoMemory>
    ensures { IfOk result (λ loads. loads.items ≡ loads_around task.now (map placing_said stay.now)) }
{
    let mut loads = task.loose().to_vec(alloc)?;
    for place in stay {
        loads.push(Loose {
            position: number_on(task, place),
            mass: place.mass,
        })?;
    }
    Ok(loads)
}
