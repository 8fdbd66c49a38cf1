//! The best placement of a task, with its evidence.

ghost use Rattle.std.specs.Prelude.{◌≡◌, IfOk, IsSomeAnd};
ghost use Rattle.hold_limits.specs.Placement.{IsBest};
ghost use Rattle.certificate.specs.Evidence.{claimed};
ghost use Rattle.cert_checker.specs.Claims.{HasNoPlacement, IsGoodFor};
ghost use Rattle.placer.specs.Answers.{IfBest, IfBudget, IfCertified, IfNoneFits, IsAnswerTo};
ghost use Rattle.placer.specs.Near.{IsNearCertificate};

use crate::near::near_certificate;
use base_words::NoMemory;
use cert_checker::{NoPlan, Proven};
use certificate::{Certificate, Claim};
use hold_limits::Task;
use std::alloc::Global;

/// What the search for the best path of a task ends with.
#[derive(Debug, Drop)]
pub enum Answer {
    /// The best path, with its evidence.
    Best(Proven),
    /// No path is admissible, with the evidence for it.
    NoneFits(NoPlan),
    /// More prefixes are near than the budget, which this is.
    Budget(u32),
}

/// Who places the containers of tasks.
pub trait Placing {
    /// The best path of the task with its near certificate, or that of a task without admissible paths. Where more
    /// prefixes are near than the budget, the answer is the budget. So the answer is a function of the task and the
    /// budget, unless memory runs out.
    fn place(&self, alloc: Global, task: &Task, budget: u32) -> Result<Answer, NoMemory>
        ensures { IfOk result (IsAnswerTo task.now budget) };
}

fn answer_of(task: Task, certificate: Certificate) -> Answer
    requires near { IsNearCertificate task certificate }
    requires good { IsGoodFor task certificate }
    ensures best { IfBest result (λ proven. proven.task ≡ task) }
    ensures path { IfBest result (λ proven.
        IsSomeAnd (claimed proven.certificate.claim) (IsBest task)) }
    ensures none { IfNoneFits result (λ no_plan. no_plan.task ≡ task) }
    ensures nothing { IfNoneFits result (λ _. HasNoPlacement task) }
    ensures near { IfCertified result (λ certified.
        IsNearCertificate task certified.certificate) }
    ensures spent { IfBudget result (λ _. ⊥) }
{
    if matches!(certificate.claim, Claim::Best(_)) {
        Answer::Best(Proven::of_good(task, certificate))
    } else {
        Answer::NoneFits(NoPlan::of_good(task, certificate))
    }
}

/// The best path of the task with its near certificate, or that of a task without admissible paths. Where more
/// prefixes are near than the budget, the answer is the budget.
pub fn place(alloc: Global, task: &Task, budget: u32) -> Result<Answer, NoMemory>
    ensures { IfOk result (IsAnswerTo task.now budget) }
{
    match near_certificate(alloc, task, budget)? {
        Some(certificate) => Ok(answer_of(task.copy(alloc)?, certificate)),
        None => Ok(Answer::Budget(budget)),
    }
}

/// The search itself.
#[derive(Clone, Copy, Debug)]
pub struct Direct;

impl Placing for Direct {
    fn place(&self, alloc: Global, task: &Task, budget: u32) -> Result<Answer, NoMemory> {
        place(alloc, task, budget)
    }
}
