//! Laws of the parts of a placement.

ghost use Rattle.std.specs.Prelude.{◌≡◌, ◌+◌, ◌<◌, ◌∷◌, ◌++◌, [], ℕ, List, nat_le, if◌then◌else◌, length, slice_get, slice_index_or, Some};
ghost use Rattle.base_words.specs.Lists.{Extends};
ghost use Rattle.hold_limits.specs.BranchOrder.{ordered};
ghost use Rattle.hold_limits.specs.Problem.{Problem};
ghost use Rattle.stop_tasks.specs.Stops.{Stops, staying};
ghost use Rattle.stop_tasks.specs.StopFaults.{AreLawfulStops};
ghost use Rattle.stop_tasks.specs.StopPaths.{IsFirstSector, last_sectors, part_of};

/// What is proved of parts: the containers of a sector stand in its branch order as they stand in that of the first one;
/// the part of a longer prefix is longer by its last number where that container is aboard, and else the same; and the
/// part of a front is a front of the part.
///
/// The call does nothing: it is there for its contract.
pub fn part_laws()
    ensures aboard { (t : Stops) (first sector : Problem) (place : ℕ) → AreLawfulStops t → IsFirstSector t first
        → slice_get t.sectors place ≡ Some sector
        → ordered sector.items ≡ staying (ordered first.items) (last_sectors t first) (place + 1) }
    ensures longer { (last : List ℕ) (number : ℕ) (prefix : List ℕ) (q : ℕ) → length prefix < length last
        → part_of last number (prefix ++ q ∷ []) ≡ (if nat_le number (slice_index_or last (length prefix) 0)
        then part_of last number prefix ++ q ∷ [] else part_of last number prefix) }
    ensures fronts { (last : List ℕ) (number : ℕ) (front whole : List ℕ) → Extends front whole
        → Extends (part_of last number front) (part_of last number whole) }
{}
