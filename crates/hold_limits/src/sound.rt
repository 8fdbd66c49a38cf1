//! Whether containers stand soundly on positions of a hold, tested rule by rule. It looks at every container and at
//! every limit: it is the plain test that faster ones are compared with.

ghost use Rattle.std.specs.Prelude.{◌≡◌, ◌≢◌, ◌≤◌, ◌↔◌, length, zip, All, AllPairs, IsTrue};
ghost use Rattle.hold_limits.specs.BranchOrder.{order_of, ordered};
ghost use Rattle.hold_limits.specs.Placement.{IsAccepted, Exclude, loose_load, IsSound};
ghost use Rattle.hold_limits.specs.Stowage.{KeepsHoldLimits, StandsSoundly};
ghost use Rattle.hold_parts.specs.Limits.{is_listed, is_counted, is_limited, most_of};

use crate::hold::Hold;
use crate::order::item_at;
use crate::stowage::{Stowage, load_on, stowage_in};
use crate::task::Task;
use hold_parts::{Combined, Cumulative, Item, Limit};

/// Whether each container's position accepts it.
fn are_accepted(hold: &Hold, items: &[Item], order: &[u8], prefix: &[u8]) -> bool
    requires ordered { order.now ≡ order_of items.now }
    requires short { length prefix.now ≤ length items.now }
    ensures { IsTrue result ↔ All (IsAccepted hold.now) (zip (ordered items.now) prefix.now) }
{
    for rank in 0..prefix.len() {
        if !hold.accepts_at(item_at(items, order, rank), prefix[rank]) {
            return false;
        }
    }
    true
}

/// Whether two positions may both be used.
fn are_compatible(hold: &Hold, one: u8, other: u8) -> bool
    ensures { IsTrue result ↔ ((one ≢ other) × (Exclude hold.now one other → ⊥)) }
{
    one != other && !hold.exclude_each_other(one, other)
}

fn is_compatible_with_all(hold: &Hold, number: u8, others: &[u8]) -> bool
    ensures { IsTrue result ↔ All (λ q. (q ≢ number) × (Exclude hold.now q number → ⊥)) others.now }
{
    others
        .iter()
        .all(|other| are_compatible(hold, *other, number))
}

/// Whether each two positions of a prefix may both be used.
fn are_all_compatible(hold: &Hold, prefix: &[u8]) -> bool
    ensures { IsTrue result ↔ AllPairs (λ a b. (a ≢ b) × (Exclude hold.now a b → ⊥)) prefix.now }
{
    for rank in 0..prefix.len() {
        if !is_compatible_with_all(hold, prefix[rank], &prefix[..rank]) {
            return false;
        }
    }
    true
}

fn is_met(stowage: &Stowage, limit: &Limit<'_>) -> bool
    ensures { IsTrue result ↔ (loose_load (is_limited limit.now) stowage.now.items ≤ most_of limit.now) }
{
    load_on(stowage.as_slice(), limit) <= u64::from(limit.most())
}

fn is_combined_met(stowage: &Stowage, limit: &Combined) -> bool
    ensures { IsTrue result ↔ (loose_load (is_listed limit.now.places) stowage.now.items ≤ limit.now.most.0) }
{
    is_met(stowage, &Limit::Listed(limit))
}

fn are_combined_met(stowage: &Stowage, limits: &[Combined]) -> bool
    ensures { IsTrue result ↔ All
        (λ limit. loose_load (is_listed limit.places) stowage.now.items ≤ limit.most.0) limits.now }
{
    for limit in limits {
        if !is_combined_met(stowage, limit) {
            return false;
        }
    }
    true
}

fn is_cumulative_met(stowage: &Stowage, limit: &Cumulative) -> bool
    ensures { IsTrue result ↔ (loose_load (is_counted limit.now) stowage.now.items ≤ limit.now.most.0) }
{
    is_met(stowage, &Limit::Counted(limit))
}

fn are_cumulative_met(stowage: &Stowage, limits: &[Cumulative]) -> bool
    ensures { IsTrue result ↔ All
        (λ limit. loose_load (is_counted limit) stowage.now.items ≤ limit.most.0) limits.now }
{
    for limit in limits {
        if !is_cumulative_met(stowage, limit) {
            return false;
        }
    }
    true
}

/// Whether what is stowed keeps every combined and every cumulative limit.
fn are_limits_met(hold: &Hold, stowage: &Stowage) -> bool
    ensures { IsTrue result ↔ KeepsHoldLimits hold.now stowage.now.items }
{
    are_combined_met(stowage, hold.combined()) && are_cumulative_met(stowage, hold.cumulative())
}

/// Whether the containers stand soundly on the positions of a prefix. `order` is the branch order of `items`, and
/// `stowage` all that lies in the hold then.
pub fn stands_soundly(
    hold: &Hold,
    items: &[Item],
    order: &[u8],
    prefix: &[u8],
    stowage: &Stowage,
) -> bool
    requires ordered { order.now ≡ order_of items.now }
    requires short { length prefix.now ≤ length items.now }
    ensures { IsTrue result ↔ StandsSoundly hold.now items.now prefix.now stowage.now.items }
{
    are_accepted(hold, items, order, prefix)
        && are_all_compatible(hold, prefix)
        && are_limits_met(hold, stowage)
}

/// Whether the numbers are a sound prefix of the task.
pub fn is_sound(task: &Task, prefix: &[u8]) -> bool
    ensures { IsTrue result ↔ IsSound task.now prefix.now }
{
    let items = task.items();
    if prefix.len() > items.len() {
        return false;
    }
    let stowage = stowage_in(task, prefix);
    stands_soundly(task.hold(), items, task.order(), prefix, &stowage)
}
