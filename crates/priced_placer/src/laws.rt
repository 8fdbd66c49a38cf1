//! Laws of the definitions: which prefixes a search by the tight reach looks at.

ghost use Rattle.std.specs.Prelude.{◌≡◌, ◌≤◌, ◌≤ℤ◌, ℕ, List};
ghost use Rattle.hold_limits.specs.Problem.{Problem};
ghost use Rattle.certificate.specs.Good.{AreAtMost};
ghost use Rattle.placer.specs.Near.{IsNear};
ghost use Rattle.priced_placer.specs.PriceNear.{IsPriceNear};

/// A price-near prefix is near, since the tight reach lies within the reach. So with the same budget `place_priced` never
/// answers that it is spent where `place` does not.
///
/// The call does nothing: it is there for its contract.
pub fn price_near_laws()
    ensures near { (t : Problem) (prefix : List ℕ) → t.ideal_low ≤ℤ t.ideal_high
        → IsPriceNear t prefix → IsNear t prefix }
    ensures fewer { (t : Problem) (budget : ℕ) → t.ideal_low ≤ℤ t.ideal_high
        → AreAtMost (IsNear t) budget → AreAtMost (IsPriceNear t) budget }
{}
