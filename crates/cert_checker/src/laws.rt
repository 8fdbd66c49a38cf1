//! Laws of the definitions: what a good certificate proves.

ghost use Rattle.std.specs.Prelude.{◌≡◌, ◌↔◌, ◌≤ℤ◌, ℕ, List, Option, Some, None};
ghost use Rattle.hold_limits.specs.Problem.{Problem};
ghost use Rattle.hold_limits.specs.Placement.{IsBest};
ghost use Rattle.certificate.specs.Good.{IsGood};
ghost use Rattle.cert_checker.specs.Claims.{HasNoPlacement};
ghost use Rattle.cert_checker.specs.FirstReason.{IsFirstReason};
ghost use Rattle.cert_checker.specs.declared.reject.Reject.{Reject};

/// A good certificate proves its claim: the path that it claims is the best, and where it claims none, no path is
/// admissible. Whoever holds a good certificate need not trust the search that found it. A certificate is good exactly
/// where there is no first reason against it, and there is at most one.
///
/// The call does nothing: it is there for its contract.
pub fn certificate_laws()
    ensures best { (t : Problem) (path : List ℕ) (cuts : List (List ℕ)) (expanded : ℕ)
        → t.ideal_low ≤ℤ t.ideal_high → IsGood t (Some path) cuts expanded → IsBest t path }
    ensures none { (t : Problem) (cuts : List (List ℕ)) (expanded : ℕ)
        → IsGood t None cuts expanded → HasNoPlacement t }
    ensures reason { (t : Problem) (claim : Option (List ℕ)) (cuts : List (List ℕ)) (expanded : ℕ)
        → ((reason : Reject) → IsFirstReason t claim cuts expanded reason → ⊥) ↔ IsGood t claim cuts expanded }
    ensures one_reason { (t : Problem) (claim : Option (List ℕ)) (cuts : List (List ℕ)) (expanded : ℕ) (a b : Reject)
        → IsFirstReason t claim cuts expanded a → IsFirstReason t claim cuts expanded b → a ≡ b }
{}
