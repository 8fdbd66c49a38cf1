//! The laws of narrowed choices.

ghost use Rattle.std.specs.Prelude.{◌≡◌, ℕ, List};
ghost use Rattle.hold_limits.specs.Problem.{Problem};
ghost use Rattle.price_trees.specs.Prices.{Choice, IsAmong};
ghost use Rattle.price_trees.specs.Narrowing.{IsRegular, Ticks, HasEmpty};
ghost use Rattle.price_trees.specs.Trees.{Refuted};
ghost use Rattle.hold_choices.specs.Narrowed.{IsNarrowed};

/// Every choice is narrowed to a result, and to one end, whatever the number of passes: either every result has a
/// container with no position, or there is just one and none of its containers is without. No regular placement is lost,
/// so what is refuted of the result is refuted of the choice.
///
/// The call does nothing: it is there for its contract.
pub fn narrowing_laws()
    ensures some { (t : Problem) (choice : Choice) → (result : Choice) × IsNarrowed t choice result }
    ensures empty { (t : Problem) (choice one other : Choice) → IsNarrowed t choice one → IsNarrowed t choice other
        → HasEmpty one → HasEmpty other }
    ensures full { (t : Problem) (choice one other : Choice) → IsNarrowed t choice one → IsNarrowed t choice other
        → (HasEmpty one → ⊥) → one ≡ other }
    ensures regular { (t : Problem) (choice result : Choice) (path : List ℕ) → IsNarrowed t choice result
        → IsRegular t path → IsAmong path choice → IsAmong path result }
    ensures refuted { (t : Problem) (ticks : Ticks) (choice result : Choice) → IsNarrowed t choice result
        → Refuted t ticks result → Refuted t ticks choice }
{}
