//! Whether no tick leaves the remainder of the hold indices.

ghost use Rattle.std.specs.Prelude.{◌≡◌, ◌≤◌, ◌<◌, ℕ, ℤ, pos, ◌+ℤ◌, ◌-ℤ◌, ◌<ℤ◌, unsigned_abs, ◌↔◌, IsTrue, length, map};
ghost use Rattle.std.specs.Int.{IsGcd, ◌∣◌};
ghost use Rattle.hold_limits.specs.Placement.{influence_at, placed_moment};
ghost use Rattle.position_set.specs.Sets.{members};
ghost use Rattle.price_trees.specs.Prices.{candidates};
ghost use Rattle.price_trees.specs.Narrowing.{IsIn};
ghost use Rattle.price_trees.specs.Trees.{IsMissed, IsMultiple, first};
ghost use Rattle.hold_choices.specs.Narrowed.{ticks_between};
ghost use Rattle.hold_choices.specs.Remainders.{LeaveOne, IsCommonDivisor};

use crate::choices::Choices;
use arrayvec::ArrayVec;
use hold_limits::{Hold, Item, Task, hold_index_of};
use position_set::PositionSet;

/// The greatest common divisor; of a number and 0 it is the number.
fn common_divisor(one: u64, other: u64) -> u64
    ensures { IsGcd one other result }
{
    let mut larger = one;
    let mut smaller = other;
    while smaller != 0 {
        let rest = larger % smaller;
        larger = smaller;
        smaller = rest;
    }
    larger
}

/// How far the influences of two positions lie apart, in ticks for each kilogram.
fn influences_apart(hold: &Hold, one: u8, other: u8) -> u64
    ensures value { result ≡ unsigned_abs (influence_at hold.now other -ℤ influence_at hold.now one) }
    ensures bounded { result ≤ 4294967295 }
{
    let influences = i64::from(hold.influence_at(other)) - i64::from(hold.influence_at(one));
    influences.unsigned_abs()
}

/// How far the moments of the container on two positions lie apart, in ticks.
fn moments_apart(hold: &Hold, item: &Item, one: u8, other: u8) -> u64
    ensures { result ≡ unsigned_abs (placed_moment hold.now (item.now, other) -ℤ placed_moment hold.now (item.now, one)) }
{
    u64::from(item.mass.0) * influences_apart(hold, one, other)
}

/// The greatest divisor of a number which also divides all that the container's moments on its positions differ by.
fn divisor_with(hold: &Hold, item: &Item, set: PositionSet, divisor: u64) -> u64
    ensures { (d : ℕ) → (d ∣ result) ↔ ((d ∣ divisor) × LeaveOne hold.now d (item.now, members set)) }
{
    let mut rest = set;
    let Some(first) = rest.take_first() else {
        return divisor;
    };
    let mut common = divisor;
    while let Some(number) = rest.take_first() {
        common = common_divisor(moments_apart(hold, item, first, number), common);
    }
    common
}

/// The greatest number that divides all that the containers' moments on their positions differ by.
fn divisor_of(task: &Task, sets: &[PositionSet]) -> u64
    requires { length sets.now ≤ length task.now.items }
    ensures { IsCommonDivisor task.now.hold (candidates task.now (map members sets.now)) result }
{
    let mut divisor = 0;
    for rank in 0..sets.len() {
        divisor = divisor_with(task.hold(), task.at_rank(rank), sets[rank], divisor);
    }
    divisor
}

/// The first position of a set, or number 0 where it has none.
fn first_of(set: PositionSet) -> u8
    ensures { result ≡ first (members set) }
{
    match set.first() {
        Some(number) => number,
        None => 0,
    }
}

fn firsts_of(sets: &[PositionSet]) -> ArrayVec<u8, 60>
    requires { length sets.now ≤ 60 }
    ensures { result.items ≡ map first (map members sets.now) }
{
    let mut path = ArrayVec::new();
    for set in sets {
        path.push(first_of(*set));
    }
    path
}

/// How far above `low` the first index lies that differs from the given one by a multiple of the divisor.
fn first_above(low: i64, index: i64, divisor: u64) -> u64
    requires { 0 < divisor }
    ensures near { result < divisor }
    ensures multiple { IsMultiple divisor ((low +ℤ pos result) -ℤ index) }
{
    let apart = low.abs_diff(index) % divisor;
    if low <= index || apart == 0 {
        apart
    } else {
        divisor - apart
    }
}

fn is_no_tick(low: i64, high: i64, index: i64) -> bool
    ensures { IsTrue result ↔ (IsIn (ticks_between low high) index → ⊥) }
{
    index < low || high < index
}

/// Whether what lies so far above `low` is past `high`.
fn is_past(low: i64, high: i64, above: u64) -> bool
    ensures { IsTrue result ↔ (high <ℤ (low +ℤ pos above)) }
{
    high < low || high.abs_diff(low) < above
}

/// Whether no tick from `low` to `high` differs from the index by a multiple of the divisor.
fn none_leaves(low: i64, high: i64, index: i64, divisor: u64) -> bool
    ensures { IsTrue result ↔ ((tick : ℤ) → IsIn (ticks_between low high) tick → IsMultiple divisor (tick -ℤ index) → ⊥) }
{
    if divisor == 0 {
        is_no_tick(low, high, index)
    } else {
        is_past(low, high, first_above(low, index, divisor))
    }
}

/// Whether all hold indices of the choice leave one remainder, by some divisor, that no tick from `low` to `high`
/// leaves. Where each container may have just one position, that is whether the one hold index is no such tick.
pub fn is_missed(task: &Task, low: i64, high: i64, choice: &Choices) -> bool
    ensures { IsTrue result ↔ IsMissed task.now (ticks_between low high) choice.now }
{
    let sets = choice.sets();
    let count = sets.len().min(task.items().len());
    let placed = &sets[..count];
    let index = hold_index_of(task, firsts_of(placed).as_slice()).0;
    none_leaves(low, high, index, divisor_of(task, placed))
}
