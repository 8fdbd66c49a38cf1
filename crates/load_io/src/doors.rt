// Doors, at which links come in one after another.
ghost use Rattle.std.specs.Prelude.{◌≡◌, ℕ, ◌+◌, ◌<◌, ◌≤◌, List, Option, IfSome, IfNone, IfOk, OnOk, OnErr};
ghost use Rattle.base_words.specs.Faults.{Rose};
ghost use Rattle.load_io.specs.Door.{Brings, NoneComes, HandsBack};

use crate::{Failed, Link};

pub mod memory;
pub mod port;
pub mod queue;
pub mod sure;

/// Where links come in, one after another, and are handed back when they are finished.
pub trait Door {
    type Link: Link + Send;

    // The links that are still to come, unless the door keeps them hidden.
    ghost coming: { Self → Option (List Self.Link) };

    // The links that were handed back, unless the door keeps them hidden.
    ghost handed: { Self → Option (List Self.Link) };

    // How many links came in and were not handed back yet.
    ghost lent: { Self → ℕ };

    // How many calls have failed.
    ghost faults: { Self → ℕ };

    /// The next link. None where the door is closed.
    fn next(&mut self) -> Result<Option<Self::Link>, Failed>
        ensures brought { IfOk result (λ next. IfSome next (λ link. Brings (coming self.old) (coming self.new) link)) }
        ensures counts { IfOk result (λ next. IfSome next (λ _. lent self.new ≡ lent self.old + 1)) }
        ensures closed { IfOk result (λ next. IfNone next (NoneComes (coming self.old) × (coming self.new ≡ coming self.old) × (lent self.new ≡ lent self.old))) }
        ensures untouched { OnErr result ((coming self.new ≡ coming self.old) × (lent self.new ≡ lent self.old)) }
        ensures handed_kept { handed self.new ≡ handed self.old }

        // Only a failure raises the count.
        ensures never_falls { faults self.old ≤ faults self.new }
        ensures uncounted { OnOk result (faults self.new ≡ faults self.old) }
        ensures counted { OnErr result (Rose (faults self.old) (faults self.new)) };

    /// Takes a finished link back.
    fn done(&mut self, link: Self::Link)
        requires lent { 0 < lent self.old }
        ensures handed { HandsBack (handed self.old) (handed self.new) link }
        ensures counts { lent self.new + 1 ≡ lent self.old }
        ensures coming_kept { coming self.new ≡ coming self.old }
        ensures faults_kept { faults self.new ≡ faults self.old };
}
