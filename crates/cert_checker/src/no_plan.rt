//! Evidence that no path is admissible.

ghost use Rattle.std.specs.Prelude.{◌≡◌, ◌↔◌, ◌⊎◌, IsNone, IsOk, IfOk, IfErr};
ghost use Rattle.cert_checker.specs.Claims.{IsGoodFor, ClaimsPath, ClaimsNone, HasNoPlacement};
ghost use Rattle.cert_checker.specs.FirstReason.{IsFirstReasonFor};
ghost use Rattle.cert_checker.specs.declared.reject.Reject.TheVariants.{NotAPlacement};
ghost use Rattle.cert_checker.specs.Certified.{certified};

use crate::checks::check;
use crate::claim::claims_path;
use crate::evidence::{CutMethod, Method};
use crate::reject::Reject;
use certificate::Certificate;
use hold_limits::Task;
use std::marker::Model;

/// A task with a good certificate that claims no path, so that none is admissible.
#[derive(Debug, Drop)]
pub struct NoPlanBy<M: Method> {
    task: Task,
    certificate: M::Certificate,
}

/// A task without a placement, with its certificate of cuts.
pub type NoPlan = NoPlanBy<CutMethod>;

impl<M: Method> Model for NoPlanBy<M> {
    ghost use Rattle.std.specs.Prelude.{IsNone};
    ghost use Rattle.cert_checker.specs.Certified.{CertifiedBy, certified};

    ghost Value = { CertifiedBy M.Certificate };

    ghost view = { λ p. certified p.task p.certificate };

    ghost invariant = { λ p. M.is_good_for p.task p.certificate × IsNone (M.claims p.certificate) };
}

impl<M: Method> NoPlanBy<M> {
    /// The task with a certificate that is known to be good, which need not be checked again.
    pub fn of_good(task: Task, certificate: M::Certificate) -> NoPlanBy<M>
        requires good { M.is_good_for task certificate }
        requires claims { IsNone (M.claims certificate) }
        ensures { result ≡ certified task certificate }
    {
        NoPlanBy { task, certificate }
    }

    /// The task, of which no path is admissible.
    pub fn task(&self) -> &Task
        ensures value { result.now ≡ self.now.task }
        ensures none { HasNoPlacement self.now.task }
    {
        let _none = M::claim(&self.certificate);
        &self.task
    }

    /// The certificate, which is good and claims no path.
    pub fn certificate(&self) -> &M::Certificate
        ensures value { result.now ≡ self.now.certificate }
        ensures good { M.is_good_for self.now.task self.now.certificate }
        ensures claims { IsNone (M.claims self.now.certificate) }
    {
        &self.certificate
    }
}

impl NoPlanBy<CutMethod> {
    /// The task with a certificate, which is checked. It is refused where it claims a path, with `NotAPlacement`, and
    /// where it is not good, with the first reason.
    pub fn new(task: Task, certificate: Certificate) -> Result<NoPlan, Reject>
        ensures made { IfOk result (λ no_plan. no_plan ≡ certified task certificate) }
        ensures accepted { IsOk result ↔ (ClaimsNone certificate × IsGoodFor task certificate) }
        ensures refused { IfErr result (λ reason. (ClaimsPath certificate × (reason ≡ NotAPlacement))
            ⊎ (ClaimsNone certificate × IsFirstReasonFor task certificate reason)) }
    {
        if claims_path(&certificate.claim) {
            return Err(Reject::NotAPlacement);
        }
        match check(&task, &certificate) {
            Ok(()) => Ok(NoPlan::of_good(task, certificate)),
            Err(reason) => Err(reason),
        }
    }
}
