//! How the search looks ahead: by the reach of each prefix.

use base_words::NoMemory;
use best_first::{Horizon, Look};
use hold_partial::Partial;

/// Each viable prefix has the bound that its reach gives, and waits with it.
#[derive(Drop)]
pub struct Reach;

impl<'a> Horizon<'a> for Reach {
    ghost use Rattle.std.specs.Prelude.{⊤};
    ghost use Rattle.best_first.specs.Bounds.{HasReachBound};

    ghost has_bound = { HasReachBound };

    ghost may_wait = { HasReachBound };

    ghost serves = { λ _ _. ⊤ };

    ghost is_at = { λ _ _ _. ⊤ };

    fn look(&mut self, _partial: &Partial<'a>, _waited: u64) -> Result<Look, NoMemory> {
        Ok(Look::Settled)
    }

    fn wait_on(&self, partial: &Partial<'a>, _bound: u64, _number: u8, reach: u64) -> u64 {
        let _lawful = partial.task();
        reach
    }

    fn laws() {}
}
