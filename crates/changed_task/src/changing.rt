//! The task with a change.

ghost use Rattle.std.specs.Prelude.{◌≡◌, ◌<◌, ◌≤◌, unsigned_abs, length, None, IfOk};
ghost use Rattle.hold_limits.specs.Faults.{task_fault};
ghost use Rattle.changed_task.specs.Parts.{with_parts, in_hold, in_window, without_item};
ghost use Rattle.changed_task.specs.Changes.{changed, IsPossible};

use crate::change::Change;
use crate::holds::{with_combined, with_cumulative, with_lateral_most, without_exclude};
use base_words::NoMemory;
use hold_limits::{Hold, Item, Task};
use mass_units::Ticks;
use std::alloc::Global;

/// The task with the change. The only error is that memory ran out.
pub fn changed(alloc: Global, task: &Task, change: Change) -> Result<Task, NoMemory>
    requires { IsPossible task.now change }
    ensures { IfOk result (λ next. next ≡ changed task.now change) }
{
    let hold = task.hold();
    match change {
        Change::DropExclude(at) => in_hold(alloc, task, without_exclude(alloc, hold, at)?),
        Change::Combined(at, most) => in_hold(alloc, task, with_combined(alloc, hold, at, most)?),
        Change::Cumulative(at, most) => {
            in_hold(alloc, task, with_cumulative(alloc, hold, at, most)?)
        }
        Change::Lateral(most) => in_hold(alloc, task, with_lateral_most(hold, most)?),
        Change::Low(low) => in_window(alloc, task, low, task.high()),
        Change::High(high) => in_window(alloc, task, task.low(), high),
        Change::LeaveItem(at) => without_item(alloc, task, at),
    }
}

/// The same task in this hold, which has its positions.
fn in_hold(alloc: Global, task: &Task, hold: Hold) -> Result<Task, NoMemory>
    requires { hold.positions ≡ task.now.hold.positions }
    ensures { IfOk result (λ next. next ≡ in_hold task.now hold) }
{
    let items = task.items().to_vec(alloc)?;
    with_parts(alloc, task, hold, items, task.low(), task.high())
}

/// The same task with this window for the hold index.
fn in_window(alloc: Global, task: &Task, low: Ticks, high: Ticks) -> Result<Task, NoMemory>
    requires low { unsigned_abs low.0 ≤ 1000000000 }
    requires high { unsigned_abs high.0 ≤ 1000000000 }
    ensures { IfOk result (λ next. next ≡ in_window task.now low.0 high.0) }
{
    let hold = task.hold().clone()?;
    let items = task.items().to_vec(alloc)?;
    with_parts(alloc, task, hold, items, low, high)
}

/// The same task without the container at this place of the offer.
fn without_item(alloc: Global, task: &Task, at: usize) -> Result<Task, NoMemory>
    requires { at < length task.now.items }
    ensures { IfOk result (λ next. next ≡ without_item task.now at) }
{
    let hold = task.hold().clone()?;
    let mut items = task.items().to_vec(alloc)?;
    items.remove(at);
    with_parts(alloc, task, hold, items, task.low(), task.high())
}

/// The task with these parts in place of its own.
fn with_parts(
    alloc: Global,
    task: &Task,
    hold: Hold,
    items: Vec<Item>,
    low: Ticks,
    high: Ticks,
) -> Result<Task, NoMemory>
    requires { task_fault (with_parts task.now hold items.items low.0 high.0) ≡ None }
    ensures { IfOk result (λ next. next ≡ with_parts task.now hold items.items low.0 high.0) }
{
    let loose = task.loose().to_vec(alloc)?;
    match Task::new(
        hold,
        items,
        loose,
        task.base(),
        low,
        high,
        task.ideal_low(),
        task.ideal_high(),
    ) {
        Ok(next) => Ok(next),
        Err(_) => unreachable!(),
    }
}
