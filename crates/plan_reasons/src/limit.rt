//! The limits of a task, and how each can be loosened.

ghost use Rattle.std.specs.Prelude.{◌≡◌, ◌≤◌, ◌++◌, unsigned_abs, All, IfOk, OnOk};
ghost use Rattle.changed_task.specs.Changes.{IsPossible};
ghost use Rattle.plan_reasons.specs.Limits.{for_each, lateral_limits, limits_of, combined_most, cumulative_most, lateral_most, slack, loosening, IsLimitOf};
ghost use Rattle.plan_reasons.specs.declared.limit.TaskLimit.TheVariants as limit;

use base_words::NoMemory;
use changed_task::Change;
use hold_limits::{Hold, Task};
use mass_units::{Kg, Ticks};
use std::alloc::Global;

/// The greatest mass that a limit of a task can have, in kilograms. No hold carries as much.
const GREATEST_MASS: u32 = 999_999_999;

/// The greatest index of a task to either side, in ticks.
const GREATEST_INDEX: i64 = 1_000_000_000;

/// A limit of a task. Places are counted from 0.
#[derive(Clone, Copy, Debug, PartialEq, Eq)]
pub enum TaskLimit {
    /// The excluding pair at this place.
    Exclude(usize),
    /// The combined limit at this place.
    Combined(usize),
    /// The cumulative limit at this place.
    Cumulative(usize),
    /// The lateral limit.
    Lateral,
    /// The least hold index of the window.
    WindowLow,
    /// The greatest hold index of the window.
    WindowHigh,
}

/// Appends the pairs that exclude, of which there are so many.
fn push_excludes(limits: &mut Vec<TaskLimit>, count: usize) -> Result<(), NoMemory>
    ensures { OnOk result (limits.new.items ≡ limits.old.items ++ for_each limit.Exclude count) }
{
    for at in 0..count {
        limits.push(TaskLimit::Exclude(at))?;
    }
    Ok(())
}

/// Appends the combined limits, of which there are so many.
fn push_combined(limits: &mut Vec<TaskLimit>, count: usize) -> Result<(), NoMemory>
    ensures { OnOk result (limits.new.items ≡ limits.old.items ++ for_each limit.Combined count) }
{
    for at in 0..count {
        limits.push(TaskLimit::Combined(at))?;
    }
    Ok(())
}

/// Appends the cumulative limits, of which there are so many.
fn push_cumulative(limits: &mut Vec<TaskLimit>, count: usize) -> Result<(), NoMemory>
    ensures { OnOk result (limits.new.items ≡ limits.old.items ++ for_each limit.Cumulative count) }
{
    for at in 0..count {
        limits.push(TaskLimit::Cumulative(at))?;
    }
    Ok(())
}

/// Appends the lateral limit, where the hold has one.
fn push_lateral(limits: &mut Vec<TaskLimit>, hold: &Hold) -> Result<(), NoMemory>
    ensures { OnOk result (limits.new.items ≡ limits.old.items ++ lateral_limits hold.now.lateral) }
{
    if hold.lateral().is_some() {
        limits.push(TaskLimit::Lateral)?;
    }
    Ok(())
}

/// All limits of a task, in the order of its text.
pub fn limits_of(alloc: Global, task: &Task) -> Result<Vec<TaskLimit>, NoMemory>
    ensures all { IfOk result (λ limits. limits.items ≡ limits_of task.now) }
    ensures each { IfOk result (λ limits. All (IsLimitOf task.now) limits.items) }
{
    let hold = task.hold();
    let mut limits = Vec::new(alloc);
    push_excludes(&mut limits, hold.excludes().len())?;
    push_combined(&mut limits, hold.combined().len())?;
    push_cumulative(&mut limits, hold.cumulative().len())?;
    push_lateral(&mut limits, hold)?;
    limits.push(TaskLimit::WindowLow)?;
    limits.push(TaskLimit::WindowHigh)?;
    Ok(limits)
}

/// The greatest mass of the combined limit at this place; 0 where there is none.
pub fn combined_most(task: &Task, at: usize) -> u32
    ensures value { result ≡ combined_most task.now at }
    ensures few { result ≤ 999999999 }
{
    task.hold()
        .combined()
        .get(at)
        .map_or(0, |limit| limit.most.0)
}

/// The greatest mass of the cumulative limit at this place; 0 where there is none.
pub fn cumulative_most(task: &Task, at: usize) -> u32
    ensures value { result ≡ cumulative_most task.now at }
    ensures few { result ≤ 999999999 }
{
    task.hold()
        .cumulative()
        .get(at)
        .map_or(0, |limit| limit.most.0)
}

/// The lateral limit; 0 where there is none.
pub fn lateral_most(task: &Task) -> u32
    ensures value { result ≡ lateral_most task.now }
    ensures few { result ≤ 999999999 }
{
    task.hold().lateral().map_or(0, |limit| limit.most.0)
}

/// The least hold index of the window, which is within 10,000 index units.
pub fn low_of(task: &Task) -> Ticks
    ensures value { result.0 ≡ task.now.low }
    ensures near { unsigned_abs result.0 ≤ 1000000000 }
{
    let _lawful = task.items();
    task.low()
}

/// The greatest hold index of the window, which is within 10,000 index units.
pub fn high_of(task: &Task) -> Ticks
    ensures value { result.0 ≡ task.now.high }
    ensures near { unsigned_abs result.0 ≤ 1000000000 }
{
    let _lawful = task.items();
    task.high()
}

/// By how many kilograms or ticks the limit can be loosened.
pub fn slack(task: &Task, limit: TaskLimit) -> u32
    ensures { result ≡ slack task.now limit }
{
    match limit {
        TaskLimit::Exclude(_) => 0,
        TaskLimit::Combined(at) => GREATEST_MASS - combined_most(task, at),
        TaskLimit::Cumulative(at) => GREATEST_MASS - cumulative_most(task, at),
        TaskLimit::Lateral => GREATEST_MASS - lateral_most(task),
        TaskLimit::WindowLow => (low_of(task).0 + GREATEST_INDEX).unsigned_abs() as u32,
        TaskLimit::WindowHigh => (GREATEST_INDEX - high_of(task).0).unsigned_abs() as u32,
    }
}

/// The change that loosens the limit by so many kilograms or ticks.
pub fn loosening(task: &Task, limit: TaskLimit, step: u32) -> Change
    requires limit { IsLimitOf task.now limit }
    requires step { step ≤ slack task.now limit }
    ensures change { result ≡ loosening task.now limit step }
    ensures possible { IsPossible task.now result }
{
    match limit {
        TaskLimit::Exclude(at) => Change::DropExclude(at),
        TaskLimit::Combined(at) => Change::Combined(at, Kg(combined_most(task, at) + step)),
        TaskLimit::Cumulative(at) => Change::Cumulative(at, Kg(cumulative_most(task, at) + step)),
        TaskLimit::Lateral => Change::Lateral(Kg(lateral_most(task) + step)),
        TaskLimit::WindowLow => Change::Low(Ticks(low_of(task).0 - i64::from(step))),
        TaskLimit::WindowHigh => Change::High(Ticks(high_of(task).0 + i64::from(step))),
    }
}
