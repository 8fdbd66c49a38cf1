//! The laws.

ghost use Rattle.std.specs.Prelude.{◌≡◌, ◌↔◌, ◌⊎◌, ℕ, Bool, List, All};
ghost use Rattle.hold_limits.specs.Problem.{Problem};
ghost use Rattle.price_trees.specs.Prices.{Choice, Prices, AreOf};
ghost use Rattle.price_trees.specs.Narrowing.{Ticks, HasEmpty, full, fixed, narrowed_once, trimmed, cut};
ghost use Rattle.price_trees.specs.Trees.{Refuted};
ghost use Rattle.hold_choices.specs.Narrowed.{IsNarrowed};
ghost use Rattle.tree_certificate.specs.Listed.{ListedTrees};
ghost use Rattle.tree_checker.specs.TreeReading.{IsOpenAs, IsClosed};
ghost use Rattle.tree_checker.specs.GoodTrees.{Tree, TreeHolds, IsGoodTrees};
ghost use Rattle.tree_laws.specs.Refutations.{Refutation, Refutes, written, HasRefutation, IsGoodByTrees};
ghost use Rattle.tree_laws.specs.GreatestChoices.{IsOfTask, IsWithin, IsStableWithin, IsGreatest};

/// The operations of a tree hold, by the checker's walk, exactly where a refutation of its choice is written as these
/// operations, in this order and to the last; where there is no tick, exactly where nothing is written. So a
/// certificate is good exactly where each of its trees has such a refutation, and its other parts hold. Only one
/// refutation of a choice is written as some operations. By prices of what the task's own hold has little of, a choice
/// with a refutation is refuted by the rules of trees.
///
/// The call does nothing: it is there for its contract.
pub fn refutation_laws()
    ensures holds { (t : Problem) (prices : List Prices) (tree : Tree)
        → TreeHolds t prices tree ↔ HasRefutation t prices tree }
    ensures good { (t : Problem) (c : ListedTrees) → IsGoodTrees t c ↔ IsGoodByTrees t c }
    ensures one { (t : Problem) (ticks : Ticks) (prices : List Prices) (choice : Choice) (one other : Refutation)
        → Refutes t ticks prices one choice → Refutes t ticks prices other choice
        → written one ≡ written other → one ≡ other }
    ensures refuted { (t : Problem) (ticks : Ticks) (prices : List Prices) (refutation : Refutation) (choice : Choice)
        → All (AreOf t) prices → Refutes t ticks prices refutation choice → Refuted t ticks choice }
{}

/// What a choice is narrowed to is the greatest choice within it that has a position for each container and from
/// which a pass takes nothing: each such choice is within what is left, so there is none where a container is then
/// without a position. So a choice is open exactly where it has a greatest one, and closed exactly where it has none.
/// A pass drops sets past the task's last container; what needs it is therefore said of choices that have no more sets
/// than the task has containers.
///
/// The call does nothing: it is there for its contract.
pub fn greatest_choice_laws()
    ensures within { (t : Problem) (choice result : Choice) → IsOfTask t choice
        → IsNarrowed t choice result → IsWithin result choice }
    ensures ended { (t : Problem) (choice result : Choice) → IsNarrowed t choice result
        → HasEmpty result ⊎ (narrowed_once t result ≡ result) }
    ensures greatest { (t : Problem) (choice result other : Choice) → IsNarrowed t choice result
        → IsStableWithin t choice other → IsWithin other result }
    ensures none { (t : Problem) (choice result other : Choice) → IsNarrowed t choice result
        → HasEmpty result → IsStableWithin t choice other → ⊥ }
    ensures opens { (t : Problem) (choice left : Choice) → IsOfTask t choice
        → IsOpenAs t choice left ↔ IsGreatest t choice left }
    ensures closes { (t : Problem) (choice : Choice) → IsOfTask t choice
        → IsClosed t choice ↔ ((other : Choice) → IsStableWithin t choice other → ⊥) }
{}

/// Every choice that the trees of a certificate are about, from their roots down, has no more sets than the task has
/// containers.
///
/// The call does nothing: it is there for its contract.
pub fn task_choice_laws()
    ensures full { (t : Problem) → IsOfTask t (full t) }
    ensures fixed { (t : Problem) (prefix : List ℕ) (choice : Choice) → IsOfTask t choice
        → IsOfTask t (fixed prefix choice) }
    ensures narrowed { (t : Problem) (choice result : Choice) → IsOfTask t choice
        → IsNarrowed t choice result → IsOfTask t result }
    ensures trimmed { (t : Problem) (ticks : Ticks) (v : Prices) (choice : Choice) → IsOfTask t choice
        → IsOfTask t (trimmed t ticks v choice) }
    ensures halved { (t : Problem) (test : ℕ → Bool) (i : ℕ) (choice : Choice) → IsOfTask t choice
        → IsOfTask t (cut test i choice) }
{}
