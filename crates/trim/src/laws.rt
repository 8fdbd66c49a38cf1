//! Laws of the definitions themselves: what they say of a flight they say of one task, one balance and one list of
//! broken rules.

ghost use Rattle.std.specs.Prelude.{◌≡◌, ◌↔◌, ℕ, ℤ, List, length, Contains};
ghost use Rattle.hold_limits.specs.Problem.{Problem};
ghost use Rattle.aircraft_file.specs.Craft.{Craft};
ghost use Rattle.trim.specs.declared.figures.Figures.{Figures};
ghost use Rattle.trim.specs.declared.fault.TrimFault.{TrimFault};
ghost use Rattle.trim.specs.declared.rules.Rule.{Rule};
ghost use Rattle.trim.specs.Balance.{IsTakeOffIndex, IsLandingIndex};
ghost use Rattle.trim.specs.Points.{IsFlightAdmissible};
ghost use Rattle.trim.specs.Refusals.{IsTaskOf, IsRefused};
ghost use Rattle.trim.specs.Rules.{Keeps, AreBroken};
ghost use Rattle.trim.specs.Laws.{KeepsPlanRules};

/// Facts that hold for every aircraft and all figures: there is at most one take-off index and one landing index of a
/// path, one task of a flight, and one list of the rules that it breaks; a flight with a task is refused only
/// where memory runs out; a rule is listed exactly where it is not kept; and a path is admissible for the flight exactly
/// where it breaks no rule on the hold and on the envelopes.
///
/// The call does nothing: it is there for its contract.
pub fn flight_laws()
    ensures take_off { (a : Craft) (f : Figures) (path : List ℕ) (x y : ℤ)
        → IsTakeOffIndex a f path x → IsTakeOffIndex a f path y → x ≡ y }
    ensures landing { (a : Craft) (f : Figures) (path : List ℕ) (x y : ℤ)
        → IsLandingIndex a f path x → IsLandingIndex a f path y → x ≡ y }
    ensures one_task { (a : Craft) (f : Figures) (t u : Problem)
        → IsTaskOf a f t → IsTaskOf a f u → t ≡ u }
    ensures unrefused { (a : Craft) (f : Figures) (t : Problem) (fault : TrimFault)
        → IsTaskOf a f t → IsRefused a f fault → fault ≡ TrimFault.NoMemory }
    ensures one_list { (a : Craft) (f : Figures) (path : List ℕ) (one other : List Rule)
        → AreBroken a f path one → AreBroken a f path other → one ≡ other }
    ensures listed { (a : Craft) (f : Figures) (path : List ℕ) (found : List Rule) (rule : Rule)
        → AreBroken a f path found → Contains found rule ↔ ¬ (Keeps a f path rule) }
    ensures admissible { (a : Craft) (f : Figures) (path : List ℕ) (found : List Rule)
        → length path ≡ length f.containers → AreBroken a f path found
        → KeepsPlanRules found ↔ IsFlightAdmissible a f path }
{}
