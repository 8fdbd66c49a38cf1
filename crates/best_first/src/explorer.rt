//! Who goes through the prefixes of a task for a search.

ghost use Rattle.std.specs.Prelude.{◌≡◌};
ghost use Rattle.hold_limits.specs.Placement.{IsSound};
ghost use Rattle.hold_partial.specs.Placing.{placing_of};

use crate::children::add_children;
use crate::horizon::Horizon;
use base_words::NoMemory;
use hold_limits::Task;
use hold_partial::{Partial, move_to};
use path_search::{Explorer, Look, Queue};

/// Makes the placement that of another sound prefix.
fn go_to(partial: &mut Partial<'_>, prefix: &[u8])
    requires { IsSound partial.old.task prefix.now }
    ensures { partial.new ≡ placing_of partial.old.task prefix.now }
{
    if !move_to(partial, prefix) {
        unreachable!();
    }
}

/// A placement that is moved to each prefix, with a horizon that looks ahead from there.
#[derive(Drop)]
pub struct TaskExplorer<'a, H> {
    pub partial: Partial<'a>,
    pub horizon: H,
}

impl<'a, H: Horizon<'a> + Drop> Explorer<Task> for TaskExplorer<'a, H> {
    ghost use Rattle.std.specs.Prelude.{◌≡◌};
    ghost use Rattle.best_first.specs.Bounds.{world_of};

    ghost subject = { λ e. e.partial.task };

    ghost world = { λ t. world_of t (H.has_bound t) };

    ghost may_wait = { λ t. H.may_wait t };

    ghost ready = { λ e. H.serves e.horizon e.partial.task };

    ghost is_at = { λ e prefix. (e.partial.prefix ≡ prefix) × H.is_at e.horizon e.partial.task prefix };

    fn count(&self) -> usize {
        self.partial.task().items().len()
    }

    fn start(&mut self) -> Option<u64> {
        H::laws();
        let _lawful = self.partial.task();
        if move_to(&mut self.partial, &[]) {
            self.partial.viable_bound()
        } else {
            None
        }
    }

    fn look(&mut self, prefix: &[u8], waited: u64) -> Result<Look, NoMemory> {
        H::laws();
        let _lawful = self.partial.task();
        go_to(&mut self.partial, prefix);
        self.horizon.look(&self.partial, waited)
    }

    fn add_children(&self, _prefix: &[u8], bound: u64, queue: &mut Queue) -> Result<(), NoMemory> {
        add_children(&self.horizon, &self.partial, bound, queue)
    }

    fn laws(&self) {
        H::laws();
        let _lawful = self.partial.task();
    }
}
