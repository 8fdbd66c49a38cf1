//! Free and open positions, the three reaches, the bounds and viable prefixes, by loops over containers and positions as
//! the definitions say them: the plain program that a partial placement is compared with.

ghost use Rattle.std.specs.Prelude.{◌≡◌, ◌↔◌, ◌&&◌, ◌≤◌, ◌<◌, nat_le, unsigned_abs, IsTrue, IfSome, length, option_map};
ghost use Rattle.std.specs.List.{list_any};
ghost use Rattle.hold_parts.specs.Twins.{are_twins};
ghost use Rattle.hold_limits.specs.Enumeration.{exclude};
ghost use Rattle.hold_limits.specs.Faults.{IsLawful};
ghost use Rattle.hold_reach.specs.Extents.{may_stand, amount_of, so_far, reached, IsBounded, IsSpanOfList};
ghost use Rattle.hold_reach.specs.Reach.{is_free, falls, is_open, amounts, wide_reach, lateral_reach, reach, Meets, MeetsLateral, IsViable, bound, wide_bound};
ghost use Rattle.plan_tests.specs.Widening.{wider_span};

use crate::plain_rules::uses;
use hold_limits::{Hold, Item, Task, hold_index_of, is_rising, is_sound, lateral_difference_of};
use hold_reach::{Extent, Span, gap_to_ideal, meets_lateral_limit, meets_window};
use mass_units::Ticks;

fn is_excluded(hold: &Hold, prefix: &[u8], number: u8) -> bool
    ensures { result ≡ list_any (λ used. exclude hold.now used number) prefix.now }
{
    prefix
        .iter()
        .any(|used| hold.exclude_each_other(*used, number))
}

/// Whether the position is free for a container that the prefix leaves.
pub fn is_position_free(task: &Task, prefix: &[u8], item: &Item, number: u8) -> bool
    ensures { result ≡ is_free task.now prefix.now item.now number }
{
    let hold = task.hold();
    hold.accepts_at(item, number) && !uses(prefix, number) && !is_excluded(hold, prefix, number)
}

fn is_twin_from(other: &Item, item: &Item, from: u8, number: u8) -> bool
    ensures { result ≡ (are_twins other.now item.now && nat_le from number) }
{
    other.is_twin_of(item) && from <= number
}

/// Whether the prefix has a twin of the container on a position with a number of at least this one.
pub fn falls_at(task: &Task, prefix: &[u8], item: &Item, number: u8) -> bool
    requires { length prefix.now ≤ length task.now.items }
    ensures { result ≡ falls task.now prefix.now item.now number }
{
    for rank in 0..prefix.len() {
        if is_twin_from(task.at_rank(rank), item, number, prefix[rank]) {
            return true;
        }
    }
    false
}

/// Whether the position is open for a container that the prefix leaves.
pub fn is_position_open(task: &Task, prefix: &[u8], item: &Item, number: u8) -> bool
    requires { length prefix.now ≤ length task.now.items }
    ensures { result ≡ is_open task.now prefix.now item.now number }
{
    is_position_free(task, prefix, item, number) && !falls_at(task, prefix, item, number)
}

fn may_stand(extent: Extent, task: &Task, prefix: &[u8], item: &Item, number: u8) -> bool
    requires { length prefix.now ≤ length task.now.items }
    ensures { result ≡ may_stand extent task.now prefix.now item.now number }
{
    match extent {
        Extent::Reach => is_position_open(task, prefix, item, number),
        Extent::WideReach | Extent::LateralReach => is_position_free(task, prefix, item, number),
    }
}

/// What a container adds on the position with this number: its mass times the influence, in ticks, or times the side,
/// in kilograms.
fn amount_on(extent: Extent, hold: &Hold, item: &Item, number: u8) -> i64
    ensures { result ≡ amount_of extent hold.now (item.now, number) }
{
    let factor = match extent {
        Extent::Reach | Extent::WideReach => hold.influence_at(number),
        Extent::LateralReach => hold.side_at(number),
    };
    i64::from(item.mass.0) * i64::from(factor)
}

/// The span with what a container adds on one position more.
fn widened(span: Option<Span>, extent: Extent, hold: &Hold, item: &Item, number: u8) -> Span
    ensures { result ≡ wider_span span (amount_of extent hold.now (item.now, number)) }
{
    let amount = amount_on(extent, hold, item, number);
    match span {
        None => Span::at(amount),
        Some(span) => Span {
            low: span.low.min(amount),
            high: span.high.max(amount),
        },
    }
}

fn span_of_amounts(extent: Extent, task: &Task, prefix: &[u8], item: &Item) -> Option<Span>
    requires { length prefix.now ≤ length task.now.items }
    ensures { IsSpanOfList (amounts task.now (may_stand extent task.now prefix.now)
        (amount_of extent task.now.hold) item.now) result }
{
    let mut span = None;
    let hold = task.hold();
    for number in 0..hold.position_count() {
        if may_stand(extent, task, prefix, item, number) {
            span = Some(widened(span, extent, hold, item, number));
        }
    }
    span
}

fn start_of(extent: Extent, task: &Task, prefix: &[u8]) -> i64
    requires { length prefix.now ≤ length task.now.items }
    ensures value { result ≡ so_far extent task.now prefix.now }
    ensures bounded { unsigned_abs result ≤ 248000000000 }
{
    match extent {
        Extent::Reach | Extent::WideReach => hold_index_of(task, prefix).0,
        Extent::LateralReach => lateral_difference_of(task, prefix),
    }
}

/// What there is so far, with the least and with the greatest amount that each remaining container adds on a position
/// where it may stand. None where one may stand nowhere.
fn span_of(extent: Extent, task: &Task, prefix: &[u8]) -> Option<Span>
    requires { length prefix.now ≤ length task.now.items }
    ensures value { option_map (λ span. (span.low, span.high)) result
        ≡ reached extent task.now prefix.now }
    ensures bounded { IfSome result (IsBounded 368000000000) }
    ensures lawful { IsLawful task.now }
{
    let mut span = Span::at(start_of(extent, task, prefix));
    for rank in prefix.len()..task.items().len() {
        span = span.plus(span_of_amounts(extent, task, prefix, task.at_rank(rank))?);
    }
    Some(span)
}

/// How far the hold index of a prefix can still reach over open positions, in ticks. None where a remaining container
/// has no open position.
pub fn reach_of(task: &Task, prefix: &[u8]) -> Option<(Ticks, Ticks)>
    requires { length prefix.now ≤ length task.now.items }
    ensures { option_map (λ span. (span.0.0, span.1.0)) result ≡ reach task.now prefix.now }
{
    let span = span_of(Extent::Reach, task, prefix)?;
    Some((Ticks(span.low), Ticks(span.high)))
}

/// How far the hold index of a prefix can still reach over free positions, in ticks. None where a remaining container
/// has no free position.
pub fn wide_reach_of(task: &Task, prefix: &[u8]) -> Option<(Ticks, Ticks)>
    requires { length prefix.now ≤ length task.now.items }
    ensures { option_map (λ span. (span.0.0, span.1.0)) result ≡ wide_reach task.now prefix.now }
{
    let span = span_of(Extent::WideReach, task, prefix)?;
    Some((Ticks(span.low), Ticks(span.high)))
}

/// How far the lateral difference of a prefix can still reach over free positions, in kilograms. None where a remaining
/// container has no free position.
pub fn lateral_reach_of(task: &Task, prefix: &[u8]) -> Option<(i64, i64)>
    requires { length prefix.now ≤ length task.now.items }
    ensures { result ≡ lateral_reach task.now prefix.now }
{
    let span = span_of(Extent::LateralReach, task, prefix)?;
    Some((span.low, span.high))
}

/// How near the ideal a prefix can still come over open positions, in ticks. None where it has no reach.
pub fn bound_of(task: &Task, prefix: &[u8]) -> Option<u64>
    requires { length prefix.now ≤ length task.now.items }
    ensures { result ≡ bound task.now prefix.now }
{
    Some(gap_to_ideal(task, span_of(Extent::Reach, task, prefix)?))
}

/// The same over free positions. None where it has no wide reach.
pub fn wide_bound_of(task: &Task, prefix: &[u8]) -> Option<u64>
    requires { length prefix.now ≤ length task.now.items }
    ensures { result ≡ wide_bound task.now prefix.now }
{
    Some(gap_to_ideal(task, span_of(Extent::WideReach, task, prefix)?))
}

fn can_meet_window(task: &Task, prefix: &[u8]) -> bool
    requires { length prefix.now ≤ length task.now.items }
    ensures { IsTrue result ↔ Meets task.now.low task.now.high (reach task.now prefix.now) }
{
    match span_of(Extent::Reach, task, prefix) {
        Some(span) => meets_window(task, span),
        None => false,
    }
}

fn can_meet_lateral_limit(task: &Task, prefix: &[u8]) -> bool
    requires { length prefix.now ≤ length task.now.items }
    ensures { IsTrue result ↔ MeetsLateral task.now.hold (lateral_reach task.now prefix.now) }
{
    match span_of(Extent::LateralReach, task, prefix) {
        Some(span) => meets_lateral_limit(task.hold(), span),
        None => task.hold().lateral().is_none(),
    }
}

/// Whether the prefix is viable.
pub fn is_prefix_viable(task: &Task, prefix: &[u8]) -> bool
    ensures { IsTrue result ↔ IsViable task.now prefix.now }
{
    is_sound(task, prefix)
        && is_rising(task, prefix)
        && can_meet_window(task, prefix)
        && can_meet_lateral_limit(task, prefix)
}
