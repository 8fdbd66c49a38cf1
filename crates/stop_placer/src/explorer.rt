//! Who goes through the prefixes of a load over several sectors for a search.

use crate::children::add_children;
use base_words::NoMemory;
use hold_limits::is_sound;
use path_search::{Explorer, Look, Queue};
use stop_partial::{NextPositions, StopPartial};
use stop_tasks::StopTask;
use stop_world::stop_world_laws;

/// A placement over all sectors, which is moved to each prefix. What it is on the other sectors is looked at once the
/// prefix is the least that waits.
#[derive(Drop)]
pub struct StopExplorer<'a> {
    pub stops: &'a StopTask,
    pub partial: StopPartial<'a>,
    /// Where the next container may stand on the first sector after the prefix at which the last look found its bound.
    pub next: NextPositions,
}

impl<'a> Explorer<StopTask> for StopExplorer<'a> {
    ghost use Rattle.std.specs.Prelude.{◌≡◌};
    ghost use Rattle.stop_world.specs.StopWorlds.{MayWaitAtStops, stop_world};
    ghost use Rattle.stop_placer.specs.NextAtStart.{AreNextAtStart};

    ghost subject = { λ e. e.stops.now };

    ghost world = { λ t. stop_world t };

    ghost may_wait = { λ t. MayWaitAtStops t };

    ghost ready = { λ e. e.partial ≡ e.stops.now };

    ghost is_at = { λ e prefix. AreNextAtStart e.stops.now prefix e.next };

    fn count(&self) -> usize {
        self.stops.first().items().len()
    }

    fn start(&mut self) -> Option<u64> {
        if is_sound(self.stops.first(), &[]) {
            Some(0)
        } else {
            None
        }
    }

    fn look(&mut self, prefix: &[u8], waited: u64) -> Result<Look, NoMemory> {
        match self.partial.viable_bound_at(prefix) {
            Some(bound) if bound > waited => Ok(Look::Later(bound)),
            Some(_) => {
                self.next = self.partial.next_after(prefix);
                Ok(Look::Settled)
            }
            None => Ok(Look::TurnedBack),
        }
    }

    fn add_children(&self, prefix: &[u8], bound: u64, queue: &mut Queue) -> Result<(), NoMemory> {
        add_children(self.stops, prefix, &self.next, bound, queue)
    }

    fn laws(&self) {
        stop_world_laws();
        let _lawful = self.stops.first().items();
    }
}
