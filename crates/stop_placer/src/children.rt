//! The prefixes that are another one with one number more.

ghost use Rattle.std.specs.Prelude.{◌<◌, length};
ghost use Rattle.std.specs.Result.{OnOk};
ghost use Rattle.path_search.specs.Search.{AddsChildren};
ghost use Rattle.stop_tasks.specs.StopFaults.{AreLawfulStops};
ghost use Rattle.stop_world.specs.StopWorlds.{HasStopBound, MayWaitAtStops, stop_world};
ghost use Rattle.stop_placer.specs.NextAtStart.{AreNextAtStart};

use base_words::NoMemory;
use path_search::{Queue, Waiting, longer};
use stop_partial::NextPositions;
use stop_tasks::StopTask;
use stop_world::stop_world_laws;

/// Adds the prefixes to the queue that are this one with one of the fitting numbers more. Each waits with the bound of
/// this one, in ticks, or with how near the ideal it can come at best where that is greater: its own bound is no less.
pub fn add_children(
    stops: &StopTask,
    prefix: &[u8],
    next: &NextPositions,
    bound: u64,
    queue: &mut Queue,
) -> Result<(), NoMemory>
    requires next { AreNextAtStart stops.now prefix.now next.now }
    requires short { length prefix.now < (stop_world stops.now).count }
    requires bound { HasStopBound stops.now prefix.now bound }
    ensures { OnOk result (AddsChildren (stop_world stops.now) (MayWaitAtStops stops.now) prefix.now bound
        ((stop_world stops.now).positions) queue.old queue.new) }
{
    stop_world_laws();
    let first = stops.first();
    let _lawful = first.items();
    for number in 0..first.hold().position_count() {
        if next.fitting.contains(number) {
            let bound = bound.max(next.least_bound_on(first, prefix, number));
            let prefix = longer(prefix, number);
            queue.add(Waiting { bound, prefix })?;
        }
    }
    Ok(())
}
