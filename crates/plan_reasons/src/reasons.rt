//! Why a task has no plan.

ghost use Rattle.std.specs.Prelude.{IfOk};
ghost use Rattle.plan_reasons.specs.Why.{AreReasons, IsWhy};

use crate::decision::{Decision, decide};
use crate::finding::{TriedLimit, try_limits};
use crate::limit::limits_of;
use base_words::NoMemory;
use hold_limits::Task;
use placer::Placing;
use std::alloc::Global;

/// What each limit of a task has to do with it that the task has no plan.
#[derive(Debug, Drop)]
pub struct Reasons {
    /// Each limit, in the order of the task's text: excluding pairs, combined limits, cumulative limits, the lateral
    /// limit, and the two ends of the window.
    pub tried: Vec<TriedLimit>,
}

/// The answer to the question why a task has no plan.
#[derive(Debug, Drop)]
pub enum Why {
    /// It has one.
    Plan,
    /// It has none.
    NoPlan(Reasons),
    /// Whether it has one was not decided.
    Open(Reasons),
}

/// What each limit of the task has to do with it.
fn reasons_of<P: Placing>(
    alloc: Global,
    task: &Task,
    looks: u32,
    placing: &P,
) -> Result<Reasons, NoMemory>
    ensures { IfOk result (AreReasons task.now looks) }
{
    let limits = limits_of(alloc, task)?;
    Ok(Reasons {
        tried: try_limits(alloc, task, &limits, looks, placing)?,
    })
}

/// Why the task has no plan, with so many looks for each question. The only error is that memory ran out.
pub fn ask_why<P: Placing>(
    alloc: Global,
    task: &Task,
    looks: u32,
    placing: &P,
) -> Result<Why, NoMemory>
    ensures { IfOk result (IsWhy task.now looks) }
{
    match decide(alloc, task, looks, placing)? {
        Decision::Plan => Ok(Why::Plan),
        Decision::NoPlan => Ok(Why::NoPlan(reasons_of(alloc, task, looks, placing)?)),
        Decision::Open => Ok(Why::Open(reasons_of(alloc, task, looks, placing)?)),
    }
}
