//! Laws of the definitions: what files are.

ghost use Rattle.std.specs.Prelude.{◌≡◌, ℕ, List};
ghost use Rattle.load_io.specs.Shelf.{Files};
ghost use Rattle.aircraft_file.specs.Craft.{Craft};
ghost use Rattle.desk_fleet.specs.Fleet.{IsFleet, IsRefused};
ghost use Rattle.desk_fleet.specs.declared.fault.RefusedFile.{RefusedFile};

/// Files describe one fleet at most; files of which one is refused describe none; and they have one refused file at most, which
/// is refused for one reason. So a run that meets a refused file cannot take the files for a fleet, and reports that file.
///
/// The call does nothing: it is there for its contract.
pub fn fleet_laws()
    ensures one_fleet { (files : Files) (names : List (List ℕ)) (a b : List Craft)
        → IsFleet files names a → IsFleet files names b → a ≡ b }
    ensures not_refused { (files : Files) (names : List (List ℕ)) (fleet : List Craft) (file : RefusedFile)
        → IsFleet files names fleet → IsRefused files names file → ⊥ }
    ensures one_refused { (files : Files) (names : List (List ℕ)) (a b : RefusedFile)
        → IsRefused files names a → IsRefused files names b → a ≡ b }
{}
