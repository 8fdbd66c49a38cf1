//! What certificates of trees prove.

ghost use Rattle.std.specs.Prelude.{◌≡◌, ◌⊎◌, IfOk, IfErr};
ghost use Rattle.tree_certificate.specs.Listed.{listed_trees};
ghost use Rattle.cert_checker.specs.Certified.{certified};
ghost use Rattle.tree_checker.specs.Claims.{IsGoodFor, ClaimsPath, ClaimsNone};
ghost use Rattle.tree_checker.specs.FirstReason.{IsRejected};
ghost use Rattle.tree_checker.specs.declared.rejection.TreeRejection.TheVariants.{NotAPlacement};

use crate::checks::check_trees;
use crate::rejection::TreeRejection;
use cert_checker::{Method, NoPlanBy, ProvenBy, claims_path};
use certificate::Claim;
use hold_limits::Task;
use std::alloc::Global;
use tree_certificate::TreeCertificate;

/// Evidence by trees.
#[derive(Debug)]
pub struct TreeMethod;

impl Method for TreeMethod {
    ghost use Rattle.certificate.specs.Evidence.{claimed};
    ghost use Rattle.tree_checker.specs.Claims.{IsGoodFor};

    type Certificate = TreeCertificate;

    ghost is_good_for = { IsGoodFor };

    ghost claims = { λ c. claimed c.claim };

    fn claim(certificate: &TreeCertificate) -> &Claim {
        &certificate.claim
    }
}

/// A best path with its certificate of trees.
pub type ProvenByTrees = ProvenBy<TreeMethod>;

/// A task without a placement, with its certificate of trees.
pub type NoPlanByTrees = NoPlanBy<TreeMethod>;

/// The task with a certificate, which is checked. It is refused where it claims no path, with `NotAPlacement`, and where
/// it is not good, with the first reason; and where there is no memory for the check.
pub fn proven_by_trees(
    alloc: Global,
    task: Task,
    certificate: TreeCertificate,
) -> Result<ProvenByTrees, TreeRejection>
    ensures made { IfOk result (λ proven. proven ≡ certified task certificate) }
    ensures accepted { IfOk result (λ _. ClaimsPath certificate × IsGoodFor task certificate) }
    ensures refused { IfErr result (λ rejection. (ClaimsNone certificate × (rejection ≡ NotAPlacement))
        ⊎ (ClaimsPath certificate × IsRejected task (listed_trees certificate) rejection)) }
{
    if !claims_path(&certificate.claim) {
        return Err(TreeRejection::NotAPlacement);
    }
    match check_trees(alloc, &task, &certificate) {
        Ok(()) => Ok(ProvenByTrees::of_good(task, certificate)),
        Err(rejection) => Err(rejection),
    }
}

/// The task with a certificate, which is checked. It is refused where it claims a path, with `NotAPlacement`, and where
/// it is not good, with the first reason; and where there is no memory for the check.
pub fn no_plan_by_trees(
    alloc: Global,
    task: Task,
    certificate: TreeCertificate,
) -> Result<NoPlanByTrees, TreeRejection>
    ensures made { IfOk result (λ no_plan. no_plan ≡ certified task certificate) }
    ensures accepted { IfOk result (λ _. ClaimsNone certificate × IsGoodFor task certificate) }
    ensures refused { IfErr result (λ rejection. (ClaimsPath certificate × (rejection ≡ NotAPlacement))
        ⊎ (ClaimsNone certificate × IsRejected task (listed_trees certificate) rejection)) }
{
    if claims_path(&certificate.claim) {
        return Err(TreeRejection::NotAPlacement);
    }
    match check_trees(alloc, &task, &certificate) {
        Ok(()) => Ok(NoPlanByTrees::of_good(task, certificate)),
        Err(rejection) => Err(rejection),
    }
}
