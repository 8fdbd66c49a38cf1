//! Laws of the definitions: what a good certificate with prices proves.

ghost use Rattle.std.specs.Prelude.{◌≡◌, ◌≤ℤ◌, ℕ, List, Some, None};
ghost use Rattle.hold_limits.specs.Problem.{Problem};
ghost use Rattle.hold_limits.specs.Placement.{IsBest};
ghost use Rattle.cert_checker.specs.Claims.{HasNoPlacement};
ghost use Rattle.priced_certificate.specs.declared.parts.PricedCut.{PricedCut};
ghost use Rattle.priced_checker.specs.Good.{IsGoodPriced};

/// A good certificate with prices proves its claim: the path that it claims is the best, and where it claims none, no
/// path is admissible. Whoever holds one need not trust the search that found it, nor how its prices were made.
///
/// The call does nothing: it is there for its contract.
pub fn priced_certificate_laws()
    ensures best { (t : Problem) (path : List ℕ) (cuts : List PricedCut) (expanded : ℕ)
        → t.ideal_low ≤ℤ t.ideal_high → IsGoodPriced t (Some path) cuts expanded → IsBest t path }
    ensures none { (t : Problem) (cuts : List PricedCut) (expanded : ℕ)
        → t.ideal_low ≤ℤ t.ideal_high → IsGoodPriced t None cuts expanded → HasNoPlacement t }
{}
