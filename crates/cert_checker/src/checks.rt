//! Whether a certificate is good.

ghost use Rattle.std.specs.Prelude.{◌↔◌, ℕ, [], IsOk, IfOk, IfErr};
ghost use Rattle.hold_limits.specs.Problem.{Problem};
ghost use Rattle.hold_limits.specs.Placement.{IsSound};
ghost use Rattle.cert_checker.specs.Claims.{IsGoodFor};
ghost use Rattle.cert_checker.specs.FirstReason.{IsFirstReasonFor};
ghost use Rattle.cert_checker.specs.Evidence.{IsMeasured};
ghost use Rattle.cert_checker.specs.Steps.{EvidenceHolds, EvidenceFails};

use crate::claim::standard_of;
use crate::cuts::check_cuts;
use crate::reject::Reject;
use crate::standard::Evidence;
use crate::walk::check_prefixes;
use certificate::Certificate;
use hold_limits::{Path, Task};
use hold_partial::{Partial, keep_first};

/// Tests the cuts, and then the prefixes that they leave.
fn check_evidence(
    partial: &mut Partial<'_>,
    evidence: &Evidence<'_, Path>,
    allowed: u32,
) -> Result<(), Reject>
    requires measured { IsMeasured partial.old.task evidence.now.standard }
    ensures holds { IfOk result (λ _. EvidenceHolds partial.old.task evidence.now allowed) }
    ensures fails { IfErr result (EvidenceFails partial.old.task evidence.now allowed) }
{
    if let Err(reason) = check_cuts(partial, evidence) {
        return Err(reason);
    }
    keep_first(partial, 0);
    check_prefixes(partial, evidence, allowed)
}

/// The same where the loose loads alone break a limit, so that no prefix is viable.
fn check_unsound(evidence: &Evidence<'_, Path>) -> Result<(), Reject>
    ensures holds { IfOk result (λ _. (t : Problem) (allowed : ℕ) → (IsSound t [] → ⊥)
        → EvidenceHolds t evidence.now allowed) }
    ensures fails { IfErr result (λ reason. (t : Problem) (allowed : ℕ) → (IsSound t [] → ⊥)
        → EvidenceFails t evidence.now allowed reason) }
{
    if evidence.cuts.is_empty() {
        Ok(())
    } else {
        Err(Reject::CutNotViable(0))
    }
}

/// Tests the cuts, and then the prefixes that they leave, on a placement of the task.
fn check_task(task: &Task, evidence: &Evidence<'_, Path>, allowed: u32) -> Result<(), Reject>
    requires measured { IsMeasured task.now evidence.now.standard }
    ensures holds { IfOk result (λ _. EvidenceHolds task.now evidence.now allowed) }
    ensures fails { IfErr result (EvidenceFails task.now evidence.now allowed) }
{
    match Partial::new(task) {
        Ok(mut partial) => check_evidence(&mut partial, evidence, allowed),
        Err(_) => check_unsound(evidence),
    }
}

/// The first reason for which the certificate is not good.
fn first_reason(task: &Task, certificate: &Certificate) -> Result<(), Reject>
    ensures good { IfOk result (λ _. IsGoodFor task.now certificate.now) }
    ensures refused { IfErr result (IsFirstReasonFor task.now certificate.now) }
{
    let standard = match standard_of(task, &certificate.claim) {
        Ok(standard) => standard,
        Err(reason) => return Err(reason),
    };
    let evidence = Evidence {
        standard,
        cuts: certificate.cuts.as_slice(),
    };
    check_task(task, &evidence, certificate.expanded)
}

/// Whether the certificate is good for the task: then its claim is true. It is refused where it is not, with the first
/// reason: the claim is tested first, then the cuts in their order, and then the viable prefixes that begin with no
/// cut, in path order. It takes no memory.
pub fn check(task: &Task, certificate: &Certificate) -> Result<(), Reject>
    ensures good { IsOk result ↔ IsGoodFor task.now certificate.now }
    ensures refused { IfErr result (IsFirstReasonFor task.now certificate.now) }
{
    first_reason(task, certificate)
}
