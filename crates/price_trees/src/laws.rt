//! The laws of prices and of trees.

ghost use Rattle.std.specs.Prelude.{◌≡◌, ◌≤ℤ◌, ◌⊎◌, ℕ, Bool, not, List};
ghost use Rattle.hold_limits.specs.Faults.{IsLawful};
ghost use Rattle.hold_limits.specs.Placement.{IsSound, KeepsLateralLimit, IsAdmissible, IsBest, hold_index};
ghost use Rattle.hold_limits.specs.Problem.{Problem};
ghost use Rattle.price_trees.specs.Prices.{Choice, IsAmong, Prices, AreOf, counted_from, value};
ghost use Rattle.price_trees.specs.Narrowing.{IsRegular, Ticks, IsIn, window, full, narrowed_once, trimmed, cut};
ghost use Rattle.price_trees.specs.Trees.{Refuted, IsShownBest};

/// The law of prices, for every task: whatever the prices, no sound placement among the choice that keeps the lateral
/// limit has a hold index below their value, counted from their end. So a value beyond the window shows at once that
/// none of these placements is admissible, and nobody need try them.
///
/// The call does nothing: it is there for its contract.
pub fn price_laws()
    ensures value { (t : Problem) (choice : Choice) (v : Prices) (path : List ℕ)
        → AreOf t v → IsSound t path → KeepsLateralLimit t path → IsAmong path choice
        → value t choice v ≤ℤ counted_from v.end (hold_index t path) }
{}

/// The law of trees, for every task: a regular placement, which is sound, rising and within the lateral limit, stays
/// among the choice where positions are taken away by the other containers or by prices, and is in one half of a
/// choice that is split. So where a tree refutes a choice, none of its regular placements has its hold index among the
/// ticks. A path with such trees for all that is nearer, and for all that is as near and precedes it, is the best one;
/// a tree over the full choice and the whole window shows that no path is admissible.
///
/// The call does nothing: it is there for its contract.
pub fn tree_laws()
    ensures narrowed { (t : Problem) (choice : Choice) (path : List ℕ)
        → IsRegular t path → IsAmong path choice → IsAmong path (narrowed_once t choice) }
    ensures trimmed { (t : Problem) (ticks : Ticks) (v : Prices) (choice : Choice) (path : List ℕ)
        → AreOf t v → IsRegular t path → IsIn ticks (hold_index t path) → IsAmong path choice
        → IsAmong path (trimmed t ticks v choice) }
    ensures halved { (test : ℕ → Bool) (i : ℕ) (choice : Choice) (path : List ℕ) → IsAmong path choice
        → IsAmong path (cut test i choice) ⊎ IsAmong path (cut (λ p. not (test p)) i choice) }
    ensures full { (t : Problem) (path : List ℕ) → IsAdmissible t path → IsAmong path (full t) }
    ensures refuted { (t : Problem) (ticks : Ticks) (choice : Choice) (path : List ℕ) → Refuted t ticks choice
        → IsRegular t path → IsAmong path choice → IsIn ticks (hold_index t path) → ⊥ }
    ensures best { (t : Problem) (path : List ℕ) → IsLawful t → IsShownBest t path → IsBest t path }
    ensures none { (t : Problem) → Refuted t (window t) (full t) → (path : List ℕ) → IsAdmissible t path → ⊥ }
{}
