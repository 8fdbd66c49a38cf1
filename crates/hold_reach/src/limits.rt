//! The loose loads on the limits of a hold, and the first limit that a prefix breaks.

ghost use Rattle.std.specs.Prelude.{◌≡◌, ◌≤◌, nat_lt, length, position};
ghost use Rattle.hold_limits.specs.Faults.{IsLawful};
ghost use Rattle.hold_limits.specs.Placement.{loose_load};
ghost use Rattle.hold_parts.specs.Limits.{is_listed, is_counted, is_limited, most_of};
ghost use Rattle.hold_reach.specs.Rules.{limit_broken};

use crate::rule::RuleBroken;
use hold_limits::{Combined, Limit, Stowage, Task, load_on, stowage_in};
use hold_parts::Cumulative;

/// The mass of the loose loads on the positions of a limit, in kilograms.
pub fn load_loose(task: &Task, limit: &Limit<'_>) -> u32
    ensures value { result ≡ loose_load (is_limited limit.now) task.now.loose }
    ensures bounded { result ≤ 1280000 }
    ensures lawful { IsLawful task.now }
{
    load_on(task.loose(), limit) as u32
}

fn breaks(stowage: &Stowage, limit: &Limit<'_>) -> bool
    ensures { result ≡ nat_lt (most_of limit.now) (loose_load (is_limited limit.now) stowage.now.items) }
{
    load_on(stowage.as_slice(), limit) > u64::from(limit.most())
}

fn broken_combined(stowage: &Stowage, limits: &[Combined]) -> Option<usize>
    ensures { result ≡ position
        (λ limit. nat_lt limit.most.0 (loose_load (is_listed limit.places) stowage.now.items)) limits.now }
{
    limits
        .iter()
        .position(|limit| breaks(stowage, &Limit::Listed(limit)))
}

fn broken_cumulative(stowage: &Stowage, limits: &[Cumulative]) -> Option<usize>
    ensures { result ≡ position
        (λ limit. nat_lt limit.most.0 (loose_load (is_counted limit) stowage.now.items)) limits.now }
{
    limits
        .iter()
        .position(|limit| breaks(stowage, &Limit::Counted(limit)))
}

/// The first limit of the hold that a prefix breaks, the combined ones first.
pub fn broken_limit(task: &Task, prefix: &[u8]) -> Option<RuleBroken>
    requires { length prefix.now ≤ length task.now.items }
    ensures value { result ≡ limit_broken task.now prefix.now }
    ensures lawful { IsLawful task.now }
{
    let stowage = stowage_in(task, prefix);
    let hold = task.hold();
    if let Some(n) = broken_combined(&stowage, hold.combined()) {
        return Some(RuleBroken::Combined(n));
    }
    broken_cumulative(&stowage, hold.cumulative()).map(RuleBroken::Cumulative)
}
