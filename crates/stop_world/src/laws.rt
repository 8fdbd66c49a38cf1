//! Laws of the prefixes of a load over several sectors.

ghost use Rattle.std.specs.Prelude.{◌↔◌, ℕ, List};
ghost use Rattle.path_search.specs.Promising.{IsPromising};
ghost use Rattle.path_search.specs.Worlds.{IsSearchable};
ghost use Rattle.stop_tasks.specs.Stops.{Stops};
ghost use Rattle.stop_tasks.specs.StopFaults.{AreLawfulStops};
ghost use Rattle.stop_tasks.specs.StopPaths.{IsStopNear};
ghost use Rattle.stop_world.specs.StopWorlds.{HasFirstBand, MayWaitAtStops, stop_world};

/// A best-first search can go through the prefixes of a lawful load over several sectors whose first ideal band is in
/// order, as that of every `Task` is. The prefixes at which it must look are the near ones.
///
/// The call does nothing: it is there for its contract.
pub fn stop_world_laws()
    ensures searchable { (t : Stops) → AreLawfulStops t → HasFirstBand t
        → IsSearchable (stop_world t) (MayWaitAtStops t) }
    ensures near { (t : Stops) (prefix : List ℕ) → AreLawfulStops t
        → IsStopNear t prefix ↔ IsPromising (stop_world t) prefix }
{}
