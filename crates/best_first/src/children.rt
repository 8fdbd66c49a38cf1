//! The prefixes that are another one with one number more.

ghost use Rattle.std.specs.Prelude.{◌≡◌, ◌<◌, length};
ghost use Rattle.std.specs.Result.{OnOk};
ghost use Rattle.path_search.specs.Search.{AddsChildren};
ghost use Rattle.best_first.specs.Bounds.{world_of};

use crate::horizon::Horizon;
use base_words::NoMemory;
use hold_partial::Partial;
use path_search::{Queue, Waiting, longer};

/// Adds the viable prefixes to the queue that are the placement's with one number more. Its bound, in ticks, was found by
/// the last look.
pub fn add_children<'a, H: Horizon<'a>>(
    horizon: &H,
    partial: &Partial<'a>,
    bound: u64,
    queue: &mut Queue,
) -> Result<(), NoMemory>
    requires at { H.is_at horizon.now partial.now.task partial.now.prefix }
    requires short { length partial.now.prefix < length partial.now.task.items }
    requires bound { H.has_bound partial.now.task partial.now.prefix bound }
    ensures { OnOk result (AddsChildren (world_of partial.now.task (H.has_bound partial.now.task))
        (H.may_wait partial.now.task) partial.now.prefix bound (length partial.now.task.hold.positions)
        queue.old queue.new) }
{
    let outlook = partial.outlook();
    for number in 0..partial.task().hold().position_count() {
        if let Some(reach) = outlook.bound_on(number) {
            let bound = horizon.wait_on(partial, bound, number, reach);
            let prefix = longer(partial.prefix(), number);
            queue.add(Waiting { bound, prefix })?;
        }
    }
    Ok(())
}
