//! Laws of the definitions themselves: of branch order, sound prefixes, best paths, and lawful holds and tasks.

ghost use Rattle.std.specs.Prelude.{◌≡◌, ◌↔◌, ◌<◌, ◌≤◌, ℕ, pos, ◌-ℤ◌, swap, List, ◌++◌, length, All, Some, None, IsTrue, MatchOption, slice_get};
ghost use Rattle.std.specs.Cmp.{IsTotalOrder};
ghost use Rattle.hold_parts.specs.declared.parts.Item.{Item};
ghost use Rattle.hold_limits.specs.Problem.{Problem};
ghost use Rattle.hold_limits.specs.BranchOrder.{Offered, IsBranchOrder, branch_order, ordered};
ghost use Rattle.hold_limits.specs.Placement.{placed, load_of, hold_index, lateral_difference, distance, key_cmp, IsSound, IsAdmissible, IsBest};
ghost use Rattle.hold_limits.specs.Lateral.{is_right, is_left};
ghost use Rattle.hold_limits.specs.Twins.{StandTwins, IsRising, is_rising};
ghost use Rattle.hold_limits.specs.Enumeration.{is_admissible, best_by_trial};
ghost use Rattle.hold_limits.specs.Layout.{Layout};
ghost use Rattle.hold_limits.specs.Faults.{IsWellSpelled, IsLawfulHold, IsLawful, hold_fault, task_fault};
ghost use Rattle.hold_limits.specs.Bounds.{KeepsHoldRules, KeepsTaskRules};

/// Facts that hold for every hold and every offer: an offer has exactly one branch order; a prefix pairs each of
/// its containers with the number at its rank; each beginning of a sound prefix is sound, so that a search may give
/// up a prefix as soon as it is not; the numbers of a sound prefix are those of positions; keys are totally ordered;
/// whether a path is admissible can be computed; and where some path is admissible there is exactly one best path,
/// which trying every path finds.
///
/// The call does nothing: it is there for its contract.
pub fn placement_laws()
    ensures one_order { (items : List Item) (a b : List Offered)
        → IsBranchOrder items a → IsBranchOrder items b → a ≡ b }
    ensures order_is { (items : List Item) → IsBranchOrder items (branch_order items) }
    ensures one_each { (t : Problem) (prefix : List ℕ)
        → length prefix ≤ length t.items → length (placed t prefix) ≡ length prefix }
    ensures paired { (t : Problem) (prefix : List ℕ) (rank q : ℕ) (item : Item)
        → slice_get (ordered t.items) rank ≡ Some item → slice_get prefix rank ≡ Some q
        → slice_get (placed t prefix) rank ≡ Some (item, q) }
    ensures prefixes { (t : Problem) (front rest : List ℕ)
        → IsSound t (front ++ rest) → IsSound t front }
    ensures numbers { (t : Problem) (prefix : List ℕ)
        → IsSound t prefix → All (λ q. q < length t.hold.positions) prefix }
    ensures keys { IsTotalOrder key_cmp }
    ensures tested { (t : Problem) (path : List ℕ)
        → IsTrue (is_admissible t path) ↔ IsAdmissible t path }
    ensures one_best { (t : Problem) (a b : List ℕ) → IsBest t a → IsBest t b → a ≡ b }
    ensures best_exists { (t : Problem) (path : List ℕ)
        → IsAdmissible t path → (best : List ℕ) × IsBest t best }
    ensures by_trial { (t : Problem)
        → MatchOption (best_by_trial t) ((path : List ℕ) → IsAdmissible t path → ⊥) (IsBest t) }
{}

/// Facts on interchangeable containers, and on what a hold's sides mean: two twins may exchange their positions, and
/// the path stays sound and keeps its hold index and its lateral difference; so the best path is rising, and where a
/// path is admissible there is a rising one that is admissible too and lies no farther from the ideal. A search need
/// therefore look at rising paths alone. The lateral difference is the load of the right positions less that of the
/// left ones.
///
/// The call does nothing: it is there for its contract.
pub fn twin_laws()
    ensures sound { (t : Problem) (path : List ℕ) (i j : ℕ)
        → StandTwins t path i j → IsSound t path → IsSound t (swap path i j) }
    ensures hold_index { (t : Problem) (path : List ℕ) (i j : ℕ)
        → StandTwins t path i j → hold_index t (swap path i j) ≡ hold_index t path }
    ensures lateral { (t : Problem) (path : List ℕ) (i j : ℕ)
        → StandTwins t path i j → lateral_difference t (swap path i j) ≡ lateral_difference t path }
    ensures best { (t : Problem) (path : List ℕ) → IsBest t path → IsRising t path }
    ensures rising { (t : Problem) (path : List ℕ) → IsAdmissible t path
        → (other : List ℕ) × IsAdmissible t other × IsRising t other × (distance t other ≤ distance t path) }
    ensures tested { (t : Problem) (prefix : List ℕ) → IsTrue (is_rising t prefix) ↔ IsRising t prefix }
    ensures sides { (t : Problem) (prefix : List ℕ) → lateral_difference t prefix
        ≡ pos (load_of (is_right t.hold) t prefix) -ℤ pos (load_of (is_left t.hold) t prefix) }
{}

/// A hold or a task has no fault exactly where it keeps its rules: there are few enough of each thing, masses and
/// indices are in range, names, kinds and identities differ, and limits are on positions of the hold. Code that is
/// given a lawful task need not test for these.
///
/// The call does nothing: it is there for its contract.
pub fn lawful_bounds()
    ensures hold { (h : Layout) → IsLawfulHold h → KeepsHoldRules h }
    ensures task { (t : Problem) → IsLawful t → KeepsTaskRules t }
    ensures hold_rules { (h : Layout) → hold_fault h ≡ None ↔ KeepsHoldRules h }
    ensures task_rules { (t : Problem) → IsLawfulHold t.hold → task_fault t ≡ None ↔ KeepsTaskRules t }
    ensures lawful_hold { (h : Layout) → IsWellSpelled h → KeepsHoldRules h → IsLawfulHold h }
    ensures lawful_task { (t : Problem) → IsLawfulHold t.hold → KeepsTaskRules t → IsLawful t }
{}
