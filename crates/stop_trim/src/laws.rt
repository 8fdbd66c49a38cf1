//! Laws of loads from figures.

ghost use Rattle.std.specs.Prelude.{◌≡◌, ℕ, List};
ghost use Rattle.aircraft_file.specs.Craft.{Craft};
ghost use Rattle.trim.specs.declared.figures.Figures.{Figures};
ghost use Rattle.trim.specs.declared.fault.TrimFault.{TrimFault};
ghost use Rattle.stop_tasks.specs.Stops.{Stops};
ghost use Rattle.stop_tasks.specs.StopFaults.{AreLawfulStops};
ghost use Rattle.stop_tasks.specs.declared.fault.StopFault.{StopFault};
ghost use Rattle.stop_trim.specs.Sectors.{IsLoadOf};
ghost use Rattle.stop_trim.specs.Refusals.{IsRefusedLoad};
ghost use Rattle.stop_trim.specs.declared.fault.StopTrim.{StopTrim};

/// Facts that hold for every aircraft and for all figures, last sectors and pairs: there is at most one load, and one
/// with nothing wrong is refused only where memory runs out; at most one sector is refused, and then no fault of the
/// load is due; and at most one fault of the load is due.
///
/// The call does nothing: it is there for its contract.
pub fn stop_trim_laws()
    ensures one_load { (a : Craft) (sectors : List Figures) (leaves : List ℕ) (behind : List (ℕ × ℕ)) (t u : Stops)
        → IsLoadOf a sectors leaves behind t → IsLoadOf a sectors leaves behind u → t ≡ u }
    ensures unrefused { (a : Craft) (sectors : List Figures) (leaves : List ℕ) (behind : List (ℕ × ℕ)) (t : Stops)
        (fault : StopTrim) → IsLoadOf a sectors leaves behind t → AreLawfulStops t
        → IsRefusedLoad a sectors leaves behind fault → fault ≡ StopTrim.NoMemory }
    ensures one_sector { (a : Craft) (sectors : List Figures) (leaves : List ℕ) (behind : List (ℕ × ℕ)) (m n : ℕ)
        (x y : TrimFault) → IsRefusedLoad a sectors leaves behind (StopTrim.Trim m x)
        → IsRefusedLoad a sectors leaves behind (StopTrim.Trim n y) → m ≡ n }
    ensures one_kind { (a : Craft) (sectors : List Figures) (leaves : List ℕ) (behind : List (ℕ × ℕ)) (n : ℕ)
        (x : TrimFault) (y : StopFault) → IsRefusedLoad a sectors leaves behind (StopTrim.Trim n x)
        → ¬ (IsRefusedLoad a sectors leaves behind (StopTrim.Stop y)) }
    ensures one_fault { (a : Craft) (sectors : List Figures) (leaves : List ℕ) (behind : List (ℕ × ℕ)) (x y : StopFault)
        → IsRefusedLoad a sectors leaves behind (StopTrim.Stop x)
        → IsRefusedLoad a sectors leaves behind (StopTrim.Stop y) → x ≡ y }
{}
