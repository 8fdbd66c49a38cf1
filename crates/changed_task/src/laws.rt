//! Laws of changes: what they leave of the admissible paths.

ghost use Rattle.std.specs.Prelude.{◌≡◌, ◌≤◌, ◌≤ℤ◌, ℕ, List, Some, slice_get};
ghost use Rattle.mass_units.specs.declared.Kg.{Kg};
ghost use Rattle.mass_units.specs.declared.Ticks.{Ticks};
ghost use Rattle.hold_parts.specs.declared.parts.Combined.{Combined};
ghost use Rattle.hold_parts.specs.declared.parts.Cumulative.{Cumulative};
ghost use Rattle.hold_parts.specs.declared.parts.Lateral.{Lateral};
ghost use Rattle.hold_limits.specs.Problem.{Problem};
ghost use Rattle.hold_limits.specs.Placement.{IsAdmissible};
ghost use Rattle.changed_task.specs.declared.change.Change.{Change};
ghost use Rattle.changed_task.specs.Changes.{changed};

/// Facts that hold for every task. With a limit of a greater mass, a lower low end or a higher high end of the window,
/// each admissible path stays admissible. A change to the value that stands changes nothing. And each path that is
/// admissible under an excluding pair is so without it.
///
/// The call does nothing: it is there for its contract.
pub fn change_laws()
    ensures combined_leaves { (t : Problem) (at : ℕ) (v w : Kg) (path : List ℕ) → v.0 ≤ w.0
        → IsAdmissible (changed t (Change.Combined at v)) path
        → IsAdmissible (changed t (Change.Combined at w)) path }
    ensures cumulative_leaves { (t : Problem) (at : ℕ) (v w : Kg) (path : List ℕ) → v.0 ≤ w.0
        → IsAdmissible (changed t (Change.Cumulative at v)) path
        → IsAdmissible (changed t (Change.Cumulative at w)) path }
    ensures lateral_leaves { (t : Problem) (v w : Kg) (path : List ℕ) → v.0 ≤ w.0
        → IsAdmissible (changed t (Change.Lateral v)) path
        → IsAdmissible (changed t (Change.Lateral w)) path }
    ensures low_leaves { (t : Problem) (v w : Ticks) (path : List ℕ) → w.0 ≤ℤ v.0
        → IsAdmissible (changed t (Change.Low v)) path
        → IsAdmissible (changed t (Change.Low w)) path }
    ensures high_leaves { (t : Problem) (v w : Ticks) (path : List ℕ) → v.0 ≤ℤ w.0
        → IsAdmissible (changed t (Change.High v)) path
        → IsAdmissible (changed t (Change.High w)) path }
    ensures same_combined { (t : Problem) (at : ℕ) (limit : Combined)
        → slice_get t.hold.combined at ≡ Some limit → changed t (Change.Combined at limit.most) ≡ t }
    ensures same_cumulative { (t : Problem) (at : ℕ) (limit : Cumulative)
        → slice_get t.hold.cumulative at ≡ Some limit → changed t (Change.Cumulative at limit.most) ≡ t }
    ensures same_lateral { (t : Problem) (limit : Lateral)
        → t.hold.lateral ≡ Some limit → changed t (Change.Lateral limit.most) ≡ t }
    ensures same_low { (t : Problem) → changed t (Change.Low (record { 0 = t.low })) ≡ t }
    ensures same_high { (t : Problem) → changed t (Change.High (record { 0 = t.high })) ≡ t }
    ensures exclude { (t : Problem) (at : ℕ) (path : List ℕ)
        → IsAdmissible t path → IsAdmissible (changed t (Change.DropExclude at)) path }
{}
