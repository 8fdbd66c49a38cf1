//! A best path with its evidence.

ghost use Rattle.std.specs.Prelude.{◌≡◌, ◌↔◌, ◌⊎◌, Some, IsSome, IsOk, IfOk, IfErr};
ghost use Rattle.hold_limits.specs.Placement.{IsBest};
ghost use Rattle.cert_checker.specs.Claims.{IsGoodFor, ClaimsPath, ClaimsNone};
ghost use Rattle.cert_checker.specs.FirstReason.{IsFirstReasonFor};
ghost use Rattle.cert_checker.specs.declared.reject.Reject.TheVariants.{NotAPlacement};
ghost use Rattle.cert_checker.specs.Certified.{certified};

use crate::checks::check;
use crate::claim::claims_path;
use crate::evidence::{CutMethod, Method};
use crate::reject::Reject;
use certificate::{Certificate, Claim};
use hold_limits::{Path, Task};
use std::marker::Model;

/// A task with a good certificate that claims a path, which is therefore the best path of the task.
#[derive(Debug, Drop)]
pub struct ProvenBy<M: Method> {
    task: Task,
    certificate: M::Certificate,
}

/// A best path with its certificate of cuts.
pub type Proven = ProvenBy<CutMethod>;

impl<M: Method> Model for ProvenBy<M> {
    ghost use Rattle.std.specs.Prelude.{IsSome};
    ghost use Rattle.cert_checker.specs.Certified.{CertifiedBy, certified};

    ghost Value = { CertifiedBy M.Certificate };

    ghost view = { λ p. certified p.task p.certificate };

    ghost invariant = { λ p. M.is_good_for p.task p.certificate × IsSome (M.claims p.certificate) };
}

impl<M: Method> ProvenBy<M> {
    /// The task with a certificate that is known to be good, which need not be checked again.
    pub fn of_good(task: Task, certificate: M::Certificate) -> ProvenBy<M>
        requires good { M.is_good_for task certificate }
        requires claims { IsSome (M.claims certificate) }
        ensures { result ≡ certified task certificate }
    {
        ProvenBy { task, certificate }
    }

    /// The task.
    pub fn task(&self) -> &Task
        ensures { result.now ≡ self.now.task }
    {
        &self.task
    }

    /// The certificate, which is good and claims a path.
    pub fn certificate(&self) -> &M::Certificate
        ensures value { result.now ≡ self.now.certificate }
        ensures good { M.is_good_for self.now.task self.now.certificate }
        ensures claims { IsSome (M.claims self.now.certificate) }
    {
        &self.certificate
    }

    /// The path, which is the best one.
    pub fn path(&self) -> &Path
        ensures value { M.claims self.now.certificate ≡ Some result.now.items }
        ensures best { IsBest self.now.task result.now.items }
    {
        let _lawful = self.task.items();
        match M::claim(&self.certificate) {
            Claim::Best(path) => path,
            Claim::NoneFits => unreachable!(),
        }
    }
}

impl ProvenBy<CutMethod> {
    /// The task with a certificate, which is checked. It is refused where it claims no path, with `NotAPlacement`, and
    /// where it is not good, with the first reason.
    pub fn new(task: Task, certificate: Certificate) -> Result<Proven, Reject>
        ensures made { IfOk result (λ proven. proven ≡ certified task certificate) }
        ensures accepted { IsOk result ↔ (ClaimsPath certificate × IsGoodFor task certificate) }
        ensures refused { IfErr result (λ reason. (ClaimsNone certificate × (reason ≡ NotAPlacement))
            ⊎ (ClaimsPath certificate × IsFirstReasonFor task certificate reason)) }
    {
        if !claims_path(&certificate.claim) {
            return Err(Reject::NotAPlacement);
        }
        match check(&task, &certificate) {
            Ok(()) => Ok(Proven::of_good(task, certificate)),
            Err(reason) => Err(reason),
        }
    }
}
