//! The limits of a hold in one list, the combined ones first, ready to look up by position.

ghost use Rattle.std.specs.Prelude.{◌≡◌, ◌<◌, ◌≤◌, Some, [], length, slice_get};
ghost use Rattle.hold_limits.specs.Faults.{IsLawfulHold};
ghost use Rattle.hold_partial.specs.Limits.{limits_of, limits_on, rule_at, AreLoads, AreAllowed};
ghost use Rattle.hold_parts.specs.Limits.{is_limited, most_of};

use arrayvec::ArrayVec;
use hold_limits::{Hold, Limit, Task};
use hold_reach::{RuleBroken, load_loose};

/// Places in the list of limits.
pub type LimitList = ArrayVec<u8, 192>;

/// A mass for each limit, in kilograms.
pub type LimitMasses = [u32; 192];

fn limit_count(hold: &Hold) -> u8
    ensures value { result ≡ length (limits_of hold.now) }
    ensures few { result ≤ 192 }
    ensures lawful { IsLawfulHold hold.now }
{
    (hold.combined().len() + hold.cumulative().len()) as u8
}

fn limit_at(hold: &Hold, place: u8) -> Limit<'_>
    requires { place < length (limits_of hold.now) }
    ensures { slice_get (limits_of hold.now) place ≡ Some (is_limited result, most_of result) }
{
    let combined = hold.combined();
    let place = place as usize;
    if place < combined.len() {
        Limit::Listed(&combined[place])
    } else {
        Limit::Counted(&hold.cumulative()[place - combined.len()])
    }
}

/// The rule that breaks where the limit at this place does.
pub fn rule_of(hold: &Hold, place: u8) -> RuleBroken
    ensures { result ≡ rule_at hold.now place }
{
    let combined = hold.combined().len();
    let place = place as usize;
    if place < combined {
        RuleBroken::Combined(place)
    } else {
        RuleBroken::Cumulative(place - combined)
    }
}

/// The limits that speak of a position.
pub fn limits_at(hold: &Hold, number: u8) -> LimitList
    ensures { result.items ≡ limits_on hold.now number }
{
    let mut limits = LimitList::new();
    for place in 0..limit_count(hold) {
        if limit_at(hold, place).covers(number) {
            limits.push(place);
        }
    }
    limits
}

/// The masses that the limits allow.
pub fn allowed_masses(hold: &Hold) -> LimitMasses
    ensures { AreAllowed hold.now result }
{
    let mut masses = [0; 192];
    for place in 0..limit_count(hold) {
        masses[place as usize] = limit_at(hold, place).most();
    }
    masses
}

/// The loads of the limits while no container is placed.
pub fn loose_masses(task: &Task) -> LimitMasses
    ensures { AreLoads task.now [] result }
{
    let hold = task.hold();
    let mut masses = [0; 192];
    for place in 0..limit_count(hold) {
        masses[place as usize] = load_loose(task, &limit_at(hold, place));
    }
    masses
}
