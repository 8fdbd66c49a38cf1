//! The least change of a limit that gives a plan.

ghost use Rattle.std.specs.Prelude.{◌≡◌, ◌<◌, ◌+◌, true, IfOk};
ghost use Rattle.plan_reasons.specs.Decisions.{HasPlan};
ghost use Rattle.plan_reasons.specs.Findings.{IsLeast};
ghost use Rattle.plan_reasons.specs.Limits.{IsLimitOf, freed, has_number, loosened, slack};
ghost use Rattle.cert_checker.specs.Claims.{HasNoPlacement};

use crate::decision::Decision;
use crate::finding::{Least, decide_loosened};
use crate::limit::{TaskLimit, slack};
use base_words::NoMemory;
use hold_limits::Task;
use placer::Placing;
use std::alloc::Global;

/// A step between two that lie apart: first small steps, each twice as long as the last, and then the middle.
fn step_between(none: u32, plan: u32) -> u32
    requires { none + 1 < plan }
    ensures above { none < result }
    ensures below { result < plan }
{
    let middle = none + (plan - none) / 2;
    middle.min(none.saturating_mul(2).saturating_add(1))
}

/// By how little the limit has to be loosened, which gives no plan as it stands and one where it is gone. Each question
/// lies between a step that gives none and a step that gives a plan.
fn step_above<P: Placing>(
    alloc: Global,
    task: &Task,
    limit: TaskLimit,
    looks: u32,
    placing: &P,
) -> Result<Least, NoMemory>
    requires limit { IsLimitOf task.now limit }
    requires number { has_number limit ≡ true }
    requires none { HasNoPlacement (loosened task.now limit 0) }
    requires plan { HasPlan (freed task.now limit) }
    ensures { IfOk result (IsLeast task.now looks limit) }
{
    let mut none = 0;
    let mut plan = slack(task, limit);
    while none + 1 < plan {
        let step = step_between(none, plan);
        match decide_loosened(alloc, task, limit, step, looks, placing)? {
            Decision::Plan => plan = step,
            Decision::NoPlan => none = step,
            Decision::Open => return Ok(Least::Open),
        }
    }
    Ok(Least::Step(plan))
}

/// By how little the limit has to be loosened, without which there is a plan.
pub fn least_step<P: Placing>(
    alloc: Global,
    task: &Task,
    limit: TaskLimit,
    looks: u32,
    placing: &P,
) -> Result<Least, NoMemory>
    requires limit { IsLimitOf task.now limit }
    requires number { has_number limit ≡ true }
    requires plan { HasPlan (freed task.now limit) }
    ensures { IfOk result (IsLeast task.now looks limit) }
{
    match decide_loosened(alloc, task, limit, 0, looks, placing)? {
        Decision::Plan => Ok(Least::Step(0)),
        Decision::NoPlan => step_above(alloc, task, limit, looks, placing),
        Decision::Open => Ok(Least::Open),
    }
}
