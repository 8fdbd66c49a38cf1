//! The best placement of a task, with a certificate of prices.

ghost use Rattle.std.specs.Prelude.{◌≡◌, IfOk, IsNone, IsSome};
ghost use Rattle.certificate.specs.Evidence.{claimed};
ghost use Rattle.best_first.specs.Promising.{IsFoundFor};
ghost use Rattle.priced_checker.specs.Good.{IsGoodPricedFor};
ghost use Rattle.priced_placer.specs.Answers.{IfBest, IfBudget, IfCertified, IfNoneFits, IsPricedAnswerTo};
ghost use Rattle.priced_placer.specs.PriceNear.{HasTightBound, IsPriceNearCertificate};

use crate::horizon::OwnPositions;
use crate::priced_cuts::with_prices;
use base_words::NoMemory;
use best_first::{Found, search};
use certificate::Claim;
use hold_limits::Task;
use priced_certificate::{PricedCertificate, PricedCuts};
use std::alloc::Global;

/// What the search for the best path of a task ends with.
#[derive(Debug, Drop)]
pub enum PricedAnswer {
    /// The certificate claims the best path, and proves it.
    Best(PricedCertificate),
    /// The certificate proves that no path is admissible.
    NoneFits(PricedCertificate),
    /// More prefixes are price-near than the budget, which this is.
    Budget(u32),
}

/// What is found, with prices for its cuts.
fn certificate_of(alloc: Global, task: &Task, found: Found) -> Result<PricedCertificate, NoMemory>
    requires { IsFoundFor task.now (HasTightBound task.now) found }
    ensures near { IfOk result (IsPriceNearCertificate task.now) }
    ensures good { IfOk result (IsGoodPricedFor task.now) }
{
    let _lawful = task.items();
    let cuts = with_prices(alloc, task, found.cuts)?;
    Ok(PricedCertificate {
        claim: found.claim,
        cuts: PricedCuts::from(cuts),
        expanded: found.expanded,
    })
}

fn answer_of(certificate: PricedCertificate) -> PricedAnswer
    ensures best { IfBest result (λ c. IsSome (claimed c.claim)) }
    ensures none { IfNoneFits result (λ c. IsNone (claimed c.claim)) }
    ensures same { IfCertified result (λ c. c ≡ certificate) }
    ensures spent { IfBudget result (λ _. ⊥) }
{
    if matches!(certificate.claim, Claim::Best(_)) {
        PricedAnswer::Best(certificate)
    } else {
        PricedAnswer::NoneFits(certificate)
    }
}

/// The best path of the task with its certificate, or that of a task without admissible paths. Where more prefixes are
/// price-near than the budget, the answer is the budget. So the answer is a function of the task and the budget, but for
/// the prices, unless memory runs out.
pub fn place_priced(alloc: Global, task: &Task, budget: u32) -> Result<PricedAnswer, NoMemory>
    ensures { IfOk result (IsPricedAnswerTo task.now budget) }
{
    match search(alloc, task, OwnPositions::new(alloc), budget)? {
        Some(found) => Ok(answer_of(certificate_of(alloc, task, found)?)),
        None => Ok(PricedAnswer::Budget(budget)),
    }
}
