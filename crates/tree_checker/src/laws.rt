//! Laws of the definitions: what a good certificate of trees proves.

ghost use Rattle.std.specs.Prelude.{◌≡◌, ◌≢◌, ℕ, List, Some, None};
ghost use Rattle.hold_limits.specs.Faults.{IsLawful};
ghost use Rattle.hold_limits.specs.Problem.{Problem};
ghost use Rattle.hold_limits.specs.Placement.{IsAdmissible, IsBest};
ghost use Rattle.price_trees.specs.Prices.{Choice, Prices};
ghost use Rattle.price_trees.specs.Narrowing.{Ticks};
ghost use Rattle.price_trees.specs.Trees.{IsShownBest};
ghost use Rattle.certificate.specs.Evidence.{claimed};
ghost use Rattle.tree_certificate.specs.Listed.{ListedTrees};
ghost use Rattle.tree_certificate.specs.declared.parts.Operation.{Operation};
ghost use Rattle.tree_checker.specs.TreeReading.{Outcome, Reading};
ghost use Rattle.tree_checker.specs.GoodTrees.{IsGoodTrees};
ghost use Rattle.tree_checker.specs.FirstReason.{IsRejected};
ghost use Rattle.tree_checker.specs.declared.rejection.TreeRejection.{TreeRejection};
ghost use Rattle.tree_checker.specs.declared.rejection.TreeRejection.TheVariants.{NoMemory};

/// A good certificate of trees proves its claim: the path that it claims is shown to be the best, and where it claims none,
/// no path is admissible. Whoever holds a good certificate need not trust the search that found it. The operations of a
/// tree have one outcome; so a certificate that is rejected is not good, and it is rejected for one reason; and none is
/// without both, good and a reason. Running out of memory says nothing about the certificate and is no reason in this sense.
///
/// The call does nothing: it is there for its contract.
pub fn tree_certificate_laws()
    ensures shown { (t : Problem) (c : ListedTrees) (path : List ℕ)
        → claimed c.claim ≡ Some path → IsGoodTrees t c → IsShownBest t path }
    ensures best { (t : Problem) (c : ListedTrees) (path : List ℕ)
        → IsLawful t → claimed c.claim ≡ Some path → IsGoodTrees t c → IsBest t path }
    ensures none { (t : Problem) (c : ListedTrees) → claimed c.claim ≡ None → IsGoodTrees t c
        → (path : List ℕ) → IsAdmissible t path → ⊥ }
    ensures one_outcome { (t : Problem) (ticks : Ticks) (prices : List Prices) (choices : List Choice)
        (operations : List Operation) (a b : Outcome) → Reading t ticks prices choices operations a
        → Reading t ticks prices choices operations b → a ≡ b }
    ensures not_good { (t : Problem) (c : ListedTrees) (rejection : TreeRejection) → IsRejected t c rejection
        → rejection ≢ NoMemory → IsGoodTrees t c → ⊥ }
    ensures one_reason { (t : Problem) (c : ListedTrees) (a b : TreeRejection) → IsRejected t c a → IsRejected t c b
        → a ≢ NoMemory → b ≢ NoMemory → a ≡ b }
    ensures some_reason { (t : Problem) (c : ListedTrees) → (IsGoodTrees t c → ⊥)
        → ((rejection : TreeRejection) → IsRejected t c rejection → rejection ≡ NoMemory) → ⊥ }
{}
