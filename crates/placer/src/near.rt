//! The near certificate of a task.

ghost use Rattle.std.specs.Prelude.{◌≡◌, IfNone, IfOk, IfSome};
ghost use Rattle.certificate.specs.Evidence.{paths_of};
ghost use Rattle.certificate.specs.Good.{AreAtMost};
ghost use Rattle.cert_checker.specs.Claims.{IsGoodFor};
ghost use Rattle.placer.specs.Near.{AreMoreThan, IsNear, IsNearCertificate};

use crate::reach::Reach;
use base_words::NoMemory;
use best_first::{Found, search};
use certificate::{Certificate, Cuts};
use hold_limits::Task;
use std::alloc::Global;

/// What is found, as a certificate.
fn certificate_of(found: Found) -> Certificate
    ensures claim { result.claim ≡ found.claim }
    ensures cuts { result.cuts ≡ paths_of found.cuts.items }
    ensures expanded { result.expanded ≡ found.expanded }
{
    Certificate {
        claim: found.claim,
        cuts: Cuts::from(found.cuts),
        expanded: found.expanded,
    }
}

/// The near certificate of the task. None where the near prefixes number more than the budget.
pub fn near_certificate(
    alloc: Global,
    task: &Task,
    budget: u32,
) -> Result<Option<Certificate>, NoMemory>
    ensures near { IfOk result (λ found. IfSome found (IsNearCertificate task.now)) }
    ensures good { IfOk result (λ found. IfSome found (IsGoodFor task.now)) }
    ensures enough { IfOk result (λ found.
        IfSome found (λ c. AreAtMost (IsNear task.now) budget)) }
    ensures over { IfOk result (λ found. IfNone found (AreMoreThan (IsNear task.now) budget)) }
{
    let _lawful = task.items();
    match search(alloc, task, Reach, budget)? {
        Some(found) => Ok(Some(certificate_of(found))),
        None => Ok(None),
    }
}
