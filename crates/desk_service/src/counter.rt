//! Where a desk asks the office.

ghost use Rattle.std.specs.Prelude.{◌≡◌, ℕ, List, IsErr, IfOk, IfErr, OnErr};
ghost use Rattle.editions.specs.Acts.{IsWithinLimits};
ghost use Rattle.flight_history.specs.declared.entry.Entry.{Entry};
ghost use Rattle.desk_service.specs.Turns.{Setting, Calls};

use desk_lock::Full;
use flight_history::{Reply, Request};
use std::alloc::Global;

/// Where one desk asks the office, whoever else asks it.
pub trait Counter<Rt> {
    // What the office opened with.
    ghost setting: { Self → Setting };

    // The number of the desk.
    ghost desk: { Self → ℕ };

    // The history of the office, up to the last entry of the desk.
    ghost seen: { Self → List Entry };

    // There is no room for another entry.
    ghost full: { Self → Type 0 };

    // What stands between two moments of the counter, the earlier one first.
    ghost follows: { Self → Self → Type 0 };

    /// Asks the office. `Full` is the answer where there is no room for an entry, and then ever after.
    fn call(&mut self, rt: &Rt, alloc: Global, request: Request) -> Result<Reply, Full<Request>>
        requires within { IsWithinLimits request }
        ensures answered { IfOk result (λ reply. Calls (setting self.old) (desk self.old) request reply (seen self.old) (seen self.new)) }
        ensures returned { IfErr result (λ full. full.request ≡ request) }
        ensures unseen { OnErr result (seen self.new ≡ seen self.old) }
        ensures full { OnErr result (full self.new) }
        ensures forever { full self.old → IsErr result }
        ensures setting { setting self.new ≡ setting self.old }
        ensures desk { desk self.new ≡ desk self.old }
        ensures follows { follows self.old self.new };

    ghost follows_itself: { (counter : Self) → follows counter counter };

    ghost follows_on: { (first next last : Self) → follows first next → follows next last → follows first last };
}
