//! What is found out of each limit of a task.

ghost use Rattle.std.specs.Prelude.{◌≡◌, ◌≤◌, All, IfOk};
ghost use Rattle.plan_reasons.specs.Decisions.{HasPlan, IsDecision};
ghost use Rattle.plan_reasons.specs.Findings.{AreTried, IsFinding, IsLeast};
ghost use Rattle.plan_reasons.specs.Limits.{IsLimitOf, freed, loosened, slack};

use crate::decision::{Decision, decide};
use crate::least_step::least_step;
use crate::limit::{TaskLimit, loosening, slack};
use base_words::NoMemory;
use changed_task::changed;
use hold_limits::Task;
use placer::Placing;
use std::alloc::Global;

/// What is found out of a limit.
#[derive(Clone, Copy, Debug, PartialEq, Eq)]
pub enum Finding {
    /// Without it there is a plan.
    Helps(Least),
    /// Without it there is none either.
    NoHelp,
    /// Whether there is one without it was not decided.
    Open,
}

/// By how little a limit has to be loosened so that there is a plan.
#[derive(Clone, Copy, Debug, PartialEq, Eq)]
pub enum Least {
    /// It has no number that can be changed.
    Whole,
    /// By so many kilograms, or by so many ticks of an index.
    Step(u32),
    /// That was not decided.
    Open,
}

/// A limit with what was found out of it.
#[derive(Clone, Copy, Debug, PartialEq, Eq)]
pub struct TriedLimit {
    pub limit: TaskLimit,
    pub finding: Finding,
}

/// Whether there is a plan where the limit is loosened by so much.
pub fn decide_loosened<P: Placing>(
    alloc: Global,
    task: &Task,
    limit: TaskLimit,
    step: u32,
    looks: u32,
    placing: &P,
) -> Result<Decision, NoMemory>
    requires limit { IsLimitOf task.now limit }
    requires step { step ≤ slack task.now limit }
    ensures { IfOk result (IsDecision (loosened task.now limit step) looks) }
{
    let loosened = changed(alloc, task, loosening(task, limit, step))?;
    decide(alloc, &loosened, looks, placing)
}

/// By how little the limit has to be loosened, without which there is a plan.
fn least_of<P: Placing>(
    alloc: Global,
    task: &Task,
    limit: TaskLimit,
    looks: u32,
    placing: &P,
) -> Result<Least, NoMemory>
    requires limit { IsLimitOf task.now limit }
    requires plan { HasPlan (freed task.now limit) }
    ensures { IfOk result (IsLeast task.now looks limit) }
{
    match limit {
        TaskLimit::Exclude(_) => Ok(Least::Whole),
        _ => least_step(alloc, task, limit, looks, placing),
    }
}

/// What is found out of the limit.
fn finding_of<P: Placing>(
    alloc: Global,
    task: &Task,
    limit: TaskLimit,
    looks: u32,
    placing: &P,
) -> Result<Finding, NoMemory>
    requires { IsLimitOf task.now limit }
    ensures { IfOk result (IsFinding task.now looks limit) }
{
    let step = slack(task, limit);
    match decide_loosened(alloc, task, limit, step, looks, placing)? {
        Decision::Plan => Ok(Finding::Helps(least_of(alloc, task, limit, looks, placing)?)),
        Decision::NoPlan => Ok(Finding::NoHelp),
        Decision::Open => Ok(Finding::Open),
    }
}

/// The limit with what is found out of it.
fn try_limit<P: Placing>(
    alloc: Global,
    task: &Task,
    limit: TaskLimit,
    looks: u32,
    placing: &P,
) -> Result<TriedLimit, NoMemory>
    requires { IsLimitOf task.now limit }
    ensures limit { IfOk result (λ it. it.limit ≡ limit) }
    ensures right { IfOk result (λ it. IsFinding task.now looks it.limit it.finding) }
{
    Ok(TriedLimit {
        limit,
        finding: finding_of(alloc, task, limit, looks, placing)?,
    })
}

/// What is found out of each of these limits, in their order.
pub fn try_limits<P: Placing>(
    alloc: Global,
    task: &Task,
    limits: &[TaskLimit],
    looks: u32,
    placing: &P,
) -> Result<Vec<TriedLimit>, NoMemory>
    requires { All (IsLimitOf task.now) limits.now }
    ensures { IfOk result (λ tried. AreTried task.now looks limits.now tried.items) }
{
    let mut tried = Vec::new(alloc);
    for limit in limits {
        tried.push(try_limit(alloc, task, *limit, looks, placing)?)?;
    }
    Ok(tried)
}
