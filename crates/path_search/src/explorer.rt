//! How a search finds its way.

ghost use Rattle.std.specs.Prelude.{◌≡◌, ℕ, ◌<◌, List, [], IfNone, IfOk, IfSome, length};
ghost use Rattle.std.specs.Result.{OnOk};
ghost use Rattle.path_search.specs.Looks.{Shows};
ghost use Rattle.path_search.specs.Search.{AddsChildren};
ghost use Rattle.path_search.specs.Worlds.{IsSearchable, World};

use crate::queue::Queue;
use base_words::NoMemory;

/// What a closer look at a prefix that waits shows.
#[derive(Clone, Copy, Debug)]
pub enum Look {
    /// It waited with its own bound.
    Settled,
    /// It has to wait with more ticks, with so many.
    Later(u64),
    /// It has no bound.
    TurnedBack,
}

/// Who goes from prefix to prefix for a search, and tells how near the ideal the paths that begin with one can come. It
/// may keep what it sees for later looks. `S` is what is searched, as a task.
pub trait Explorer<S> {
    // What is searched.
    ghost subject: { Self → S };

    // The prefixes and the paths of it.
    ghost world: { S → World };

    // The viable prefix may wait with so many ticks: its bound, if it has one, is no less.
    ghost may_wait: { S → List ℕ → ℕ → Type 0 };

    // What was kept is right.
    ghost ready: { Self → Type 0 };

    // The last look was at this prefix, and found its bound.
    ghost is_at: { Self → List ℕ → Type 0 };

    /// How many numbers a path has.
    fn count(&self) -> usize
        ensures { result ≡ (world (subject self.now)).count };

    /// With how many ticks the empty prefix may wait. None where it is not viable.
    fn start(&mut self) -> Option<u64>
        requires { ready self.old }
        ensures subject { subject self.new ≡ subject self.old }
        ensures ready { ready self.new }
        ensures found { IfSome result (may_wait (subject self.old) []) }
        ensures none { IfNone result ((world (subject self.old)).IsViable [] → ⊥) };

    /// Looks closer at a prefix, which waited with so many ticks.
    fn look(&mut self, prefix: &[u8], waited: u64) -> Result<Look, NoMemory>
        requires ready { ready self.old }
        requires waits { may_wait (subject self.old) prefix.now waited }
        ensures subject { OnOk result (subject self.new ≡ subject self.old) }
        ensures ready { OnOk result (ready self.new) }
        ensures shown { IfOk result (Shows ((world (subject self.old)).HasBound prefix.now)
            (may_wait (subject self.old) prefix.now) (is_at self.new prefix.now) waited) };

    /// Adds the viable prefixes to the queue that are this one with one number more. Its bound, in ticks, was found by the
    /// last look, and they wait with at least as many.
    fn add_children(&self, prefix: &[u8], bound: u64, queue: &mut Queue) -> Result<(), NoMemory>
        requires ready { ready self.now }
        requires at { is_at self.now prefix.now }
        requires short { length prefix.now < (world (subject self.now)).count }
        requires bound { (world (subject self.now)).HasBound prefix.now bound }
        ensures { OnOk result (AddsChildren (world (subject self.now)) (may_wait (subject self.now)) prefix.now bound
            ((world (subject self.now)).positions) queue.old queue.new) };

    /// Does nothing. Its contract says that a search by these bounds finds the best path.
    fn laws(&self)
        ensures { IsSearchable (world (subject self.now)) (may_wait (subject self.now)) };
}
