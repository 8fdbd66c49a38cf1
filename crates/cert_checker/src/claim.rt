//! Whether a claim holds, and what is better than it.

ghost use Rattle.std.specs.Prelude.{◌≡◌, ◌↔◌, ◌≤◌, IfOk, IfErr, IsSome, IsNone, IsTrue, false, length};
ghost use Rattle.hold_limits.specs.Placement.{IsAtMost};
ghost use Rattle.certificate.specs.Evidence.{claimed};
ghost use Rattle.cert_checker.specs.FirstReason.{ClaimHolds};
ghost use Rattle.cert_checker.specs.Evidence.{path_of, standard_key, IsMeasured, IsAtLeast};
ghost use Rattle.cert_checker.specs.declared.reject.Reject.TheVariants.{NotAPlacement};

use crate::reject::Reject;
use crate::standard::{Evidence, Standard};
use certificate::Claim;
use hold_limits::{Task, is_admissible, outcome};
use std::cmp::Ordering;

/// Whether a path is claimed.
pub fn claims_path(claim: &Claim) -> bool
    ensures path { IsTrue result ↔ IsSome (claimed claim.now) }
    ensures none { result ≡ false ↔ IsNone (claimed claim.now) }
{
    match claim {
        Claim::Best(_) => true,
        Claim::NoneFits => false,
    }
}

/// The claimed path with its distance in ticks, if one is claimed: the first step of a check. It is refused where it is
/// not admissible.
pub fn standard_of<'a>(task: &Task, claim: &'a Claim) -> Result<Option<Standard<'a>>, Reject>
    ensures path { IfOk result (λ standard. path_of standard ≡ claimed claim.now) }
    ensures measured { IfOk result (λ standard. IsMeasured task.now standard) }
    ensures holds { IfOk result (λ _. ClaimHolds task.now (claimed claim.now)) }
    ensures refused { IfErr result (λ reason. reason ≡ NotAPlacement) }
    ensures fails { IfErr result (λ _. ClaimHolds task.now (claimed claim.now) → ⊥) }
{
    let Claim::Best(path) = claim else {
        return Ok(None);
    };
    if !is_admissible(task, path.as_slice()) {
        return Err(Reject::NotAPlacement);
    }
    let distance = outcome(task, path).1;
    Ok(Some(Standard { path, distance }))
}

/// Whether the key of the claimed path is at most that of a prefix with this bound.
fn is_at_most(standard: &Standard<'_>, bound: u64, prefix: &[u8]) -> bool
    ensures { IsTrue result ↔ IsAtMost (standard_key standard.now) (bound, prefix.now) }
{
    match standard.distance.cmp(&bound) {
        Ordering::Less => true,
        Ordering::Equal => !standard.path.as_slice().cmp(prefix).is_gt(),
        Ordering::Greater => false,
    }
}

/// Whether a path is claimed whose key is at most that of a prefix with this bound in ticks: what begins with the prefix is
/// then no better than the claimed path.
pub fn is_at_least<C>(evidence: &Evidence<'_, C>, bound: u64, prefix: &[u8]) -> bool
    ensures { IsTrue result ↔ IsAtLeast evidence.now.standard (bound, prefix.now) }
{
    match &evidence.standard {
        Some(standard) => is_at_most(standard, bound, prefix),
        None => false,
    }
}
