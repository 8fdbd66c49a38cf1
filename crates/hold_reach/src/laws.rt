//! Laws of the definitions: what is proved of free and open positions, of the reaches, viable and the bounds, and of
//! the first broken rule themselves.

ghost use Rattle.std.specs.Prelude.{◌≡◌, ◌↔◌, ◌≤◌, ◌≤ℤ◌, ℕ, ℤ, false, List, [], ◌∷◌, ◌++◌, length, Some, None, IsTrue, IsSomeAnd, slice_get};
ghost use Rattle.hold_parts.specs.declared.parts.Item.{Item};
ghost use Rattle.hold_limits.specs.Problem.{Problem};
ghost use Rattle.hold_limits.specs.BranchOrder.{ordered};
ghost use Rattle.hold_limits.specs.Faults.{IsLawful};
ghost use Rattle.hold_limits.specs.Placement.{IsSound, IsAdmissible, hold_index, lateral_difference, distance};
ghost use Rattle.hold_limits.specs.Twins.{IsRising};
ghost use Rattle.hold_reach.specs.Rules.{rule_broken, limit_broken};
ghost use Rattle.hold_reach.specs.Reach.{IsFree, is_free, IsOpen, is_open, falls, reach, wide_reach, lateral_reach, Meets, IsViable, bound, wide_bound};
ghost use Rattle.hold_reach.specs.Choices.{Allows, AllowsWidely, AllowsLaterally, Spans, LiesIn, IsNearest};

/// The definitions say what is meant, for every task.
///
/// Each reach goes from the least to the greatest sum that its positions allow the remaining containers. One position
/// more never widens the wide reach or the lateral reach, and a rising one never widens the reach. So every prefix of
/// a rising admissible path is viable, and a search may skip a prefix that is not. The bound is the distance of the
/// hold index in reach that is nearest to the ideal. So no rising admissible path that extends the prefix has a smaller
/// distance, and a search may skip a prefix whose bound is too great. For all admissible paths, rising or not, the same
/// holds of the wide reach and the wide bound. A complete prefix reaches its own sums alone. The first broken rule is
/// none exactly where the prefix is sound.
///
/// The call does nothing: it is there for its contract.
pub fn reach_laws()
    ensures free_asked { (t : Problem) (prefix : List ℕ) (item : Item) (q : ℕ)
        → IsTrue (is_free t prefix item q) ↔ IsFree t prefix item q }
    ensures open_asked { (t : Problem) (prefix : List ℕ) (item : Item) (q : ℕ)
        → IsTrue (is_open t prefix item q) ↔ IsOpen t prefix item q }
    ensures reach_is { (t : Problem) (prefix : List ℕ) → Spans (reach t prefix) (Allows t prefix) }
    ensures wide_reach_is { (t : Problem) (prefix : List ℕ)
        → Spans (wide_reach t prefix) (AllowsWidely t prefix) }
    ensures lateral_reach_is { (t : Problem) (prefix : List ℕ)
        → Spans (lateral_reach t prefix) (AllowsLaterally t prefix) }
    ensures narrows { (t : Problem) (prefix : List ℕ) (q : ℕ) (inner : ℤ × ℤ)
        → IsSound t (prefix ++ q ∷ []) → IsRising t (prefix ++ q ∷ [])
        → reach t (prefix ++ q ∷ []) ≡ Some inner → IsSomeAnd (reach t prefix) (LiesIn inner) }
    ensures narrows_widely { (t : Problem) (prefix : List ℕ) (q : ℕ) (inner : ℤ × ℤ)
        → IsSound t (prefix ++ q ∷ []) → wide_reach t (prefix ++ q ∷ []) ≡ Some inner
        → IsSomeAnd (wide_reach t prefix) (LiesIn inner) }
    ensures narrows_laterally { (t : Problem) (prefix : List ℕ) (q : ℕ) (inner : ℤ × ℤ)
        → IsSound t (prefix ++ q ∷ []) → lateral_reach t (prefix ++ q ∷ []) ≡ Some inner
        → IsSomeAnd (lateral_reach t prefix) (LiesIn inner) }
    ensures viable { (t : Problem) (front rest : List ℕ)
        → IsAdmissible t (front ++ rest) → IsRising t (front ++ rest) → IsViable t front }
    ensures nearest { (t : Problem) (prefix : List ℕ) (span : ℤ × ℤ)
        → t.ideal_low ≤ℤ t.ideal_high → reach t prefix ≡ Some span
        → IsSomeAnd (bound t prefix) (IsNearest t span) }
    ensures bounded { (t : Problem) (front rest : List ℕ)
        → t.ideal_low ≤ℤ t.ideal_high → IsAdmissible t (front ++ rest) → IsRising t (front ++ rest)
        → IsSomeAnd (bound t front) (λ b. b ≤ distance t (front ++ rest)) }
    ensures window_met_widely { (t : Problem) (front rest : List ℕ)
        → IsAdmissible t (front ++ rest) → Meets t.low t.high (wide_reach t front) }
    ensures nearest_widely { (t : Problem) (prefix : List ℕ) (span : ℤ × ℤ)
        → t.ideal_low ≤ℤ t.ideal_high → wide_reach t prefix ≡ Some span
        → IsSomeAnd (wide_bound t prefix) (IsNearest t span) }
    ensures bounded_widely { (t : Problem) (front rest : List ℕ)
        → t.ideal_low ≤ℤ t.ideal_high → IsAdmissible t (front ++ rest)
        → IsSomeAnd (wide_bound t front) (λ b. b ≤ distance t (front ++ rest)) }
    ensures band { (t : Problem) → IsLawful t → t.ideal_low ≤ℤ t.ideal_high }
    ensures complete_reach { (t : Problem) (path : List ℕ) → length path ≡ length t.items
        → reach t path ≡ Some (hold_index t path, hold_index t path) }
    ensures complete_wide_reach { (t : Problem) (path : List ℕ) → length path ≡ length t.items
        → wide_reach t path ≡ Some (hold_index t path, hold_index t path) }
    ensures complete_lateral_reach { (t : Problem) (path : List ℕ) → length path ≡ length t.items
        → lateral_reach t path ≡ Some (lateral_difference t path, lateral_difference t path) }
    ensures complete_bound { (t : Problem) (path : List ℕ) → length path ≡ length t.items
        → bound t path ≡ Some (distance t path) }
    ensures complete_viable { (t : Problem) (path : List ℕ) → length path ≡ length t.items
        → IsViable t path → IsAdmissible t path }
    ensures longer_rising { (t : Problem) (prefix : List ℕ) (item : Item) (q : ℕ)
        → IsRising t prefix → slice_get (ordered t.items) (length prefix) ≡ Some item
        → (falls t prefix item q ≡ false) ↔ IsRising t (prefix ++ q ∷ []) }
    ensures empty_sound { (t : Problem) → (limit_broken t [] ≡ None) ↔ IsSound t [] }
    ensures longer_sound { (t : Problem) (prefix : List ℕ) (item : Item) (q : ℕ)
        → IsSound t prefix → slice_get (ordered t.items) (length prefix) ≡ Some item
        → (rule_broken t prefix item q ≡ None) ↔ IsSound t (prefix ++ q ∷ []) }
{}
