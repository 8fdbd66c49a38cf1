//! Holds with one limit changed.

ghost use Rattle.std.specs.Prelude.{◌≡◌, ◌<◌, ◌≤◌, length, None, IfOk};
ghost use Rattle.hold_limits.specs.Faults.{IsLawfulHold, hold_fault};
ghost use Rattle.hold_limits.specs.Layout.{layout_of, with_lateral};
ghost use Rattle.changed_task.specs.Parts.{with_limits, without_exclude, with_combined, with_cumulative, with_lateral_most};

use base_words::NoMemory;
use hold_limits::{Combined, Cumulative, Hold, Lateral};
use mass_units::Kg;
use std::alloc::Global;

/// The hold without the excluding pair at this place.
pub fn without_exclude(alloc: Global, hold: &Hold, at: usize) -> Result<Hold, NoMemory>
    requires { at < length hold.now.excludes }
    ensures { IfOk result (λ next. next ≡ without_exclude hold.now at) }
{
    let mut excludes = hold.excludes().to_vec(alloc)?;
    excludes.remove(at);
    let combined = hold.combined().to_vec(alloc)?;
    let cumulative = hold.cumulative().to_vec(alloc)?;
    with_limits(alloc, hold, excludes, combined, cumulative)
}

/// The hold with this greatest mass of the combined limit at this place.
pub fn with_combined(alloc: Global, hold: &Hold, at: usize, most: Kg) -> Result<Hold, NoMemory>
    requires at { at < length hold.now.combined }
    requires most { most.0 ≤ 999999999 }
    ensures { IfOk result (λ next. next ≡ with_combined hold.now at most) }
{
    let excludes = hold.excludes().to_vec(alloc)?;
    let mut combined = hold.combined().to_vec(alloc)?;
    combined[at].most = most;
    let cumulative = hold.cumulative().to_vec(alloc)?;
    with_limits(alloc, hold, excludes, combined, cumulative)
}

/// The hold with this greatest mass of the cumulative limit at this place.
pub fn with_cumulative(alloc: Global, hold: &Hold, at: usize, most: Kg) -> Result<Hold, NoMemory>
    requires at { at < length hold.now.cumulative }
    requires most { most.0 ≤ 999999999 }
    ensures { IfOk result (λ next. next ≡ with_cumulative hold.now at most) }
{
    let excludes = hold.excludes().to_vec(alloc)?;
    let combined = hold.combined().to_vec(alloc)?;
    let mut cumulative = hold.cumulative().to_vec(alloc)?;
    cumulative[at].most = most;
    with_limits(alloc, hold, excludes, combined, cumulative)
}

/// The hold with this greatest difference of the masses right and left, where it has a lateral limit.
pub fn with_lateral_most(hold: &Hold, most: Kg) -> Result<Hold, NoMemory>
    requires { most.0 ≤ 999999999 }
    ensures { IfOk result (λ next. next ≡ with_lateral_most hold.now most) }
{
    let next = hold.clone()?;
    match hold.lateral() {
        Some(lateral) => {
            let sides = lateral.sides.clone()?;
            under_lateral(next, Lateral { most, sides })
        }
        None => Ok(next),
    }
}

/// The hold with these limits in place of its own.
fn with_limits(
    alloc: Global,
    hold: &Hold,
    excludes: Vec<(u8, u8)>,
    combined: Vec<Combined>,
    cumulative: Vec<Cumulative>,
) -> Result<Hold, NoMemory>
    requires { IsLawfulHold (with_limits hold.now excludes.items combined.items cumulative.items) }
    ensures { IfOk result (λ next. next ≡ with_limits hold.now excludes.items combined.items cumulative.items) }
{
    let next = bare_hold(alloc, hold, excludes, combined, cumulative)?;
    match hold.lateral() {
        Some(lateral) => under_lateral(next, lateral.clone()?),
        None => Ok(next),
    }
}

/// The hold with these limits in place of its own, and without a lateral limit.
fn bare_hold(
    alloc: Global,
    hold: &Hold,
    excludes: Vec<(u8, u8)>,
    combined: Vec<Combined>,
    cumulative: Vec<Cumulative>,
) -> Result<Hold, NoMemory>
    requires { IsLawfulHold (layout_of hold.now.positions excludes.items combined.items cumulative.items) }
    ensures { IfOk result
        (λ next. next ≡ layout_of hold.now.positions excludes.items combined.items cumulative.items) }
{
    let positions = hold.positions().to_vec(alloc)?;
    match Hold::new(positions, excludes, combined, cumulative) {
        Ok(next) => Ok(next),
        Err(_) => unreachable!(),
    }
}

/// The hold under this lateral limit, which it can have.
fn under_lateral(hold: Hold, lateral: Lateral) -> Result<Hold, NoMemory>
    requires most { lateral.most.0 ≤ 999999999 }
    requires right { hold_fault (with_lateral hold lateral) ≡ None }
    ensures { IfOk result (λ next. next ≡ with_lateral hold lateral) }
{
    match hold.with_lateral(lateral) {
        Ok(next) => Ok(next),
        Err(_) => unreachable!(),
    }
}
