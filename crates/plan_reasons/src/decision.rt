//! The judge: whether a task has a plan.

ghost use Rattle.std.specs.Prelude.{IfOk};
ghost use Rattle.plan_reasons.specs.Decisions.{IsDecision};

use base_words::NoMemory;
use hold_limits::Task;
use placer::Placing;
use std::alloc::Global;
use task_answers::{Outcome, find_by_trees};

/// What the search says to the question whether a task has a plan.
#[derive(Clone, Copy, Debug, PartialEq, Eq)]
pub enum Decision {
    /// It has one.
    Plan,
    /// It has none.
    NoPlan,
    /// So many looks do not decide it.
    Open,
}

/// Whether the task has a plan, by the search of the command `best` with so many looks. The only error is that memory
/// ran out.
pub fn decide<P: Placing>(
    alloc: Global,
    task: &Task,
    looks: u32,
    placing: &P,
) -> Result<Decision, NoMemory>
    ensures { IfOk result (IsDecision task.now looks) }
{
    let found = find_by_trees(alloc, task, looks, placing)?;
    match found.reply.outcome {
        Outcome::Done => Ok(Decision::Plan),
        Outcome::NothingFits => Ok(Decision::NoPlan),
        _ => Ok(Decision::Open),
    }
}
