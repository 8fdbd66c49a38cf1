//! How a search looks ahead.

ghost use Rattle.std.specs.Prelude.{◌≡◌, ℕ, ◌<◌, ◌≤◌, ◌≤ℤ◌, IfOk, List, [], ◌∷◌, ◌++◌, length};
ghost use Rattle.std.specs.Result.{OnOk};
ghost use Rattle.hold_limits.specs.Problem.{Problem};
ghost use Rattle.best_first.specs.Bounds.{AreBounds, HasReachBound};
ghost use Rattle.best_first.specs.Looks.{Shows};

use base_words::NoMemory;
use hold_partial::Partial;
use path_search::Look;

/// A way to tell how near the ideal the paths that begin with a prefix can come. It may keep what it sees for later looks.
pub trait Horizon<'a> {
    // The prefix of the task is worth a look, and no path that begins with it comes nearer the ideal than so many ticks.
    ghost has_bound: { Problem → List ℕ → ℕ → Type 0 };

    // The viable prefix may wait with so many ticks: its bound, if it has one, is no less.
    ghost may_wait: { Problem → List ℕ → ℕ → Type 0 };

    // What was kept is of this task.
    ghost serves: { Self → Problem → Type 0 };

    // The last look was at this prefix, and found its bound.
    ghost is_at: { Self → Problem → List ℕ → Type 0 };

    /// Looks closer at the placement's prefix, which waited with so many ticks.
    fn look(&mut self, partial: &Partial<'a>, waited: u64) -> Result<Look, NoMemory>
        requires serves { serves self.old partial.now.task }
        requires waits { may_wait partial.now.task partial.now.prefix waited }
        ensures serves { OnOk result (serves self.new partial.now.task) }
        ensures shown { IfOk result (Shows (has_bound partial.now.task partial.now.prefix)
            (may_wait partial.now.task partial.now.prefix)
            (is_at self.new partial.now.task partial.now.prefix) waited) };

    /// With how many ticks the placement's prefix with this number more may wait: at least as many as its own bound. The
    /// last look was at the placement's prefix, and the longer prefix is viable and has this reach bound, in ticks.
    fn wait_on(&self, partial: &Partial<'a>, bound: u64, number: u8, reach: u64) -> u64
        requires at { is_at self.now partial.now.task partial.now.prefix }
        requires short { length partial.now.prefix < length partial.now.task.items }
        requires bound { has_bound partial.now.task partial.now.prefix bound }
        requires reach { HasReachBound partial.now.task (partial.now.prefix ++ number ∷ []) reach }
        ensures waits { may_wait partial.now.task (partial.now.prefix ++ number ∷ []) result }
        ensures later { bound ≤ result };

    /// Does nothing. Its contract says that a search by these bounds finds the best path.
    fn laws()
        ensures { (t : Problem) → t.ideal_low ≤ℤ t.ideal_high → AreBounds t (has_bound t) (may_wait t) };
}
