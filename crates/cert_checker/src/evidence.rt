//! Evidence for a claim on a task.

ghost use Rattle.std.specs.Prelude.{◌≡◌, ℕ, List, Option, Some, IsNone};
ghost use Rattle.hold_limits.specs.Problem.{Problem};
ghost use Rattle.hold_limits.specs.Faults.{IsLawful};
ghost use Rattle.hold_limits.specs.Placement.{IsBest};
ghost use Rattle.certificate.specs.Evidence.{claimed};
ghost use Rattle.cert_checker.specs.Claims.{HasNoPlacement};

use certificate::{Certificate, Claim};

/// Evidence by certificates of one kind. Whoever holds a good certificate need not trust the search that found it.
pub trait Method {
    type Certificate: Drop;

    // The certificate is good for the task.
    ghost is_good_for: { Problem → Self.Certificate → Type 0 };

    // The path that the certificate claims to be the best, if it claims one.
    ghost claims: { Self.Certificate → Option (List ℕ) };

    /// What a certificate claims. A good one proves it.
    fn claim(certificate: &Self::Certificate) -> &Claim
        ensures value { claimed result.now ≡ claims certificate.now }
        ensures best { (t : Problem) (path : List ℕ)
            → IsLawful t → is_good_for t certificate.now → claims certificate.now ≡ Some path → IsBest t path }
        ensures none { (t : Problem)
            → is_good_for t certificate.now → IsNone (claims certificate.now) → HasNoPlacement t };
}

/// Evidence by cuts.
#[derive(Debug)]
pub struct CutMethod;

impl Method for CutMethod {
    ghost use Rattle.certificate.specs.Evidence.{claimed};
    ghost use Rattle.cert_checker.specs.Claims.{IsGoodFor};

    type Certificate = Certificate;

    ghost is_good_for = { IsGoodFor };

    ghost claims = { λ c. claimed c.claim };

    fn claim(certificate: &Certificate) -> &Claim {
        &certificate.claim
    }
}
