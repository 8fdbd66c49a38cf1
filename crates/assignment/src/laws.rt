//! What prices say of every way.

ghost use Rattle.std.specs.Prelude.{ℕ, ℤ, ◌+ℤ◌, ◌≤ℤ◌, List};
ghost use Rattle.assignment.specs.Ways.{IsWay, cost_of};
ghost use Rattle.assignment.specs.Prices.{AreLowerPrices, AreUpperPrices, total};
ghost use Rattle.assignment.specs.Costs.{MayStand, cost_in};
ghost use Rattle.assignment.specs.declared.candidate.Candidate.{Candidate};

/// Does nothing: it is here for its contract, the law that no way costs less than all lower prices together, or more
/// than all upper prices.
pub fn price_laws()
    ensures lower { (candidates : List Candidate) (influences items places : List ℤ) (way : List ℕ)
        → AreLowerPrices MayStand (cost_in influences) candidates items places → IsWay MayStand candidates way
        → (total items +ℤ total places) ≤ℤ cost_of (cost_in influences) candidates way }
    ensures upper { (candidates : List Candidate) (influences items places : List ℤ) (way : List ℕ)
        → AreUpperPrices MayStand (cost_in influences) candidates items places → IsWay MayStand candidates way
        → cost_of (cost_in influences) candidates way ≤ℤ (total items +ℤ total places) }
{}
