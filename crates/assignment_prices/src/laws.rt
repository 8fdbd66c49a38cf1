//! Laws of the tight reach and of prices.

ghost use Rattle.std.specs.Prelude.{◌≡◌, ◌↔◌, ◌++◌, ◌∷◌, [], ℕ, ℤ, List, Option, Some, IfSome, IsSomeAnd, length};
ghost use Rattle.hold_limits.specs.Problem.{Problem};
ghost use Rattle.hold_limits.specs.Placement.{IsAdmissible, IsSound, hold_index};
ghost use Rattle.hold_limits.specs.Twins.{IsRising};
ghost use Rattle.hold_reach.specs.Choices.{Allows, IsWithin, LiesIn};
ghost use Rattle.hold_reach.specs.Reach.{reach};
ghost use Rattle.assignment_prices.specs.Priced.{ArePricesOf, price_span};
ghost use Rattle.assignment_prices.specs.TightReach.{AllowsTightly, IsTightReach};
ghost use Rattle.assignment_prices.specs.declared.prices.Prices.{Prices};

/// What is proved of the definitions, for every task.
///
/// Each prefix has a tight reach, or none where there is no way; it lies within the reach. Every rising admissible path that begins with a prefix has its hold index in the
/// prefix's tight reach, and in the span of every prices; and no prices have a span that leaves out a part of the tight
/// reach. A longer prefix never has a wider tight reach.
///
/// The call does nothing: it is there for its contract.
pub fn tight_reach_laws()
    ensures tighter { (t : Problem) (prefix : List ℕ) (tight : ℤ × ℤ)
        → IsTightReach t prefix (Some tight) → IsSomeAnd (reach t prefix) (LiesIn tight) }
    ensures exists { (t : Problem) (prefix : List ℕ) → (reached : Option (ℤ × ℤ)) × IsTightReach t prefix reached }
    ensures holds { (t : Problem) (front rest : List ℕ)
        → IsAdmissible t (front ++ rest) → IsRising t (front ++ rest)
        → AllowsTightly t front (hold_index t (front ++ rest)) }
    ensures priced { (t : Problem) (prefix : List ℕ) (x : Prices) (index : ℤ)
        → ArePricesOf t prefix x → AllowsTightly t prefix index → IsWithin (price_span t prefix x) index }
    ensures narrows { (t : Problem) (prefix : List ℕ) (q : ℕ) (index : ℤ)
        → IsSound t (prefix ++ q ∷ []) → IsRising t (prefix ++ q ∷ [])
        → AllowsTightly t (prefix ++ q ∷ []) index → AllowsTightly t prefix index }
    ensures complete { (t : Problem) (path : List ℕ) → length path ≡ length t.items
        → IsTightReach t path (Some (hold_index t path, hold_index t path)) }
{}
