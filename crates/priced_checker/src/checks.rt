//! Whether a certificate with prices is good.

ghost use Rattle.std.specs.Prelude.{◌↔◌, ℕ, [], IsOk, IfOk, IfErr};
ghost use Rattle.hold_limits.specs.Problem.{Problem};
ghost use Rattle.hold_limits.specs.Placement.{IsSound};
ghost use Rattle.cert_checker.specs.Evidence.{IsMeasured};
ghost use Rattle.priced_checker.specs.Good.{IsGoodPricedFor};
ghost use Rattle.priced_checker.specs.FirstReason.{IsFirstPricedReasonFor};
ghost use Rattle.priced_checker.specs.Steps.{EvidenceHolds, EvidenceFails};

use crate::cuts::check_cuts;
use crate::reject::PricedReject;
use cert_checker::{Evidence, check_prefixes, standard_of};
use hold_limits::Task;
use hold_partial::{Partial, keep_first};
use priced_certificate::{PricedCertificate, PricedCut};

/// Tests the cuts, and then the prefixes that they leave.
fn check_evidence(
    partial: &mut Partial<'_>,
    evidence: &Evidence<'_, PricedCut>,
    allowed: u32,
) -> Result<(), PricedReject>
    requires measured { IsMeasured partial.old.task evidence.now.standard }
    ensures holds { IfOk result (λ _. EvidenceHolds partial.old.task evidence.now allowed) }
    ensures fails { IfErr result (EvidenceFails partial.old.task evidence.now allowed) }
{
    if let Err(reason) = check_cuts(partial, evidence) {
        return Err(reason);
    }
    keep_first(partial, 0);
    match check_prefixes(partial, evidence, allowed) {
        Ok(()) => Ok(()),
        Err(plain) => Err(PricedReject::from(plain)),
    }
}

/// The same where the loose loads alone break a limit, so that no prefix is viable.
fn check_unsound(evidence: &Evidence<'_, PricedCut>) -> Result<(), PricedReject>
    ensures holds { IfOk result (λ _. (t : Problem) (allowed : ℕ) → (IsSound t [] → ⊥)
        → EvidenceHolds t evidence.now allowed) }
    ensures fails { IfErr result (λ reason. (t : Problem) (allowed : ℕ) → (IsSound t [] → ⊥)
        → EvidenceFails t evidence.now allowed reason) }
{
    if evidence.cuts.is_empty() {
        Ok(())
    } else {
        Err(PricedReject::CutNotViable(0))
    }
}

/// Tests the cuts, and then the prefixes that they leave, on a placement of the task.
fn check_task(
    task: &Task,
    evidence: &Evidence<'_, PricedCut>,
    allowed: u32,
) -> Result<(), PricedReject>
    requires measured { IsMeasured task.now evidence.now.standard }
    ensures holds { IfOk result (λ _. EvidenceHolds task.now evidence.now allowed) }
    ensures fails { IfErr result (EvidenceFails task.now evidence.now allowed) }
{
    match Partial::new(task) {
        Ok(mut partial) => check_evidence(&mut partial, evidence, allowed),
        Err(_) => check_unsound(evidence),
    }
}

/// The first reason for which the certificate is not good.
fn first_reason(task: &Task, c: &PricedCertificate) -> Result<(), PricedReject>
    ensures good { IfOk result (λ _. IsGoodPricedFor task.now c.now) }
    ensures refused { IfErr result (IsFirstPricedReasonFor task.now c.now) }
{
    let standard = match standard_of(task, &c.claim) {
        Ok(standard) => standard,
        Err(plain) => return Err(PricedReject::from(plain)),
    };
    let evidence = Evidence {
        standard,
        cuts: c.cuts.as_slice(),
    };
    check_task(task, &evidence, c.expanded)
}

/// Whether the certificate is good for the task: then its claim is true. It is refused where it is not, with the first
/// reason: the claim is tested first, then the cuts in their order with their prices, and then the viable prefixes that
/// begin with no cut, in path order. It takes no memory.
pub fn check_priced(task: &Task, c: &PricedCertificate) -> Result<(), PricedReject>
    ensures good { IsOk result ↔ IsGoodPricedFor task.now c.now }
    ensures refused { IfErr result (IsFirstPricedReasonFor task.now c.now) }
{
    first_reason(task, c)
}
