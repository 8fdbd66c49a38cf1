//! The span of hold indices that prices show.

ghost use Rattle.std.specs.Prelude.{◌≡◌, ◌↔◌, ◌<◌, ◌≤◌, ◌++◌, ℕ, ℤ, List, ◌≤ℤ◌, ◌+ℤ◌, pos, All, IfNone, IfSome, IsTrue, Some, length, slice_get, unsigned_abs};
ghost use Rattle.std.specs.List.{AllZip};
ghost use Rattle.assignment.specs.Prices.{total};
ghost use Rattle.hold_parts.specs.declared.parts.Item.{Item};
ghost use Rattle.hold_limits.specs.BranchOrder.{ordered};
ghost use Rattle.hold_limits.specs.Placement.{IsAdmissible, hold_index, placed_moment};
ghost use Rattle.hold_limits.specs.Twins.{IsRising};
ghost use Rattle.hold_reach.specs.Choices.{IsWithin};
ghost use Rattle.hold_reach.specs.Reach.{remaining};
ghost use Rattle.assignment_prices.specs.Priced.{AreSmall, AreWhole, ArePricesOf, price_span};
ghost use Rattle.assignment_prices.specs.Steps.{counted_from, BoundsOn, Bounds, BoundEnd};

use crate::end::End;
use crate::prices::Prices;
use hold_limits::{Hold, Item, Task, hold_index_of};
use hold_partial::Partial;

/// The greatest price either way, in ticks.
const GREATEST: u64 = 10_000_000_000_000;

/// Prices for one end of a span.
#[derive(Clone, Copy)]
pub struct Half<'a> {
    pub end: End,
    pub items: &'a [i64],
    pub places: &'a [i64],
}

fn are_small(prices: &[i64]) -> bool
    ensures { IsTrue result ↔ AreSmall prices.now }
{
    prices.iter().all(|price| price.unsigned_abs() <= GREATEST)
}

/// Whether there is one price for each container that is left, and one for each position.
fn have_lengths(partial: &Partial<'_>, half: &Half<'_>) -> bool
    ensures { IsTrue result
        ↔ ((length half.now.items.now ≡ length (remaining partial.now.task partial.now.prefix))
        × (length half.now.places.now ≡ length partial.now.task.hold.positions)) }
{
    let task = partial.task();
    let left = task.items().len() - partial.prefix().len();
    half.items.len() == left && half.places.len() == task.hold().positions().len()
}

/// Whether there is one price for each container that is left and one for each position, none of them too great.
fn are_whole(partial: &Partial<'_>, half: &Half<'_>) -> bool
    ensures { IsTrue result ↔ AreWhole partial.now.task partial.now.prefix half.now.items.now half.now.places.now }
{
    have_lengths(partial, half) && are_small(half.items) && are_small(half.places)
}

/// Whether no price of a position is on the wrong side of 0.
fn have_signs(half: &Half<'_>) -> bool
    ensures { IsTrue result ↔ All (λ price. counted_from half.now.end price ≤ℤ counted_from half.now.end (pos 0)) half.now.places.now }
{
    let end = half.end;
    half.places.iter().all(|price| end.is_nearer(*price, 0))
}

/// Mass times influence of a container on a position, in ticks.
fn moment_at(hold: &Hold, item: &Item, number: u8) -> i64
    ensures { result ≡ placed_moment hold.now (item.now, number) }
{
    i64::from(item.mass.0) * i64::from(hold.influence_at(number))
}

/// The same of the container of a rank.
fn moment_on(task: &Task, rank: u8, number: u8) -> i64
    requires known { rank < length task.now.items }
    ensures value { (item : Item) → slice_get (ordered task.now.items) rank ≡ Some item
        → result ≡ placed_moment task.now.hold (item, number) }
    ensures bounded { unsigned_abs result ≤ 2000000000 }
{
    moment_at(task.hold(), task.at_rank(rank as usize), number)
}

/// Whether the price of a container that is left bounds its moment on a position, where that is open for it. The
/// containers that are left are counted from 0.
fn bounds_on(partial: &Partial<'_>, half: &Half<'_>, at: usize, number: u8) -> bool
    requires whole { AreWhole partial.now.task partial.now.prefix half.now.items.now half.now.places.now }
    requires left { at < length half.now.items.now }
    requires known { number < length partial.now.task.hold.positions }
    ensures { (item : Item) (price : ℤ) → slice_get (remaining partial.now.task partial.now.prefix) at ≡ Some item
        → slice_get half.now.items.now at ≡ Some price
        → IsTrue result ↔ BoundsOn half.now.end partial.now.task partial.now.prefix half.now.places.now item price number }
{
    let task = partial.task();
    let rank = (partial.prefix().len() + at) as u8;
    if !partial.is_open(rank, number) {
        return true;
    }
    let sum = half.items[at] + half.places[number as usize];
    half.end.is_nearer(sum, moment_on(task, rank, number))
}

/// Whether the price of a container that is left bounds its moments.
fn bounds(partial: &Partial<'_>, half: &Half<'_>, at: usize) -> bool
    requires whole { AreWhole partial.now.task partial.now.prefix half.now.items.now half.now.places.now }
    requires left { at < length half.now.items.now }
    ensures { (item : Item) (price : ℤ) → slice_get (remaining partial.now.task partial.now.prefix) at ≡ Some item
        → slice_get half.now.items.now at ≡ Some price
        → IsTrue result ↔ Bounds half.now.end partial.now.task partial.now.prefix half.now.places.now item price }
{
    for number in 0..partial.task().hold().position_count() {
        if !bounds_on(partial, half, at, number) {
            return false;
        }
    }
    true
}

/// Whether the prices bound the moments of all containers that are left.
fn bound_all(partial: &Partial<'_>, half: &Half<'_>) -> bool
    requires { AreWhole partial.now.task partial.now.prefix half.now.items.now half.now.places.now }
    ensures { IsTrue result ↔ AllZip (Bounds half.now.end partial.now.task partial.now.prefix half.now.places.now)
        (remaining partial.now.task partial.now.prefix) half.now.items.now }
{
    for at in 0..half.items.len() {
        if !bounds(partial, half, at) {
            return false;
        }
    }
    true
}

/// Whether they are prices for their end of what the prefix leaves.
fn bound_end(partial: &Partial<'_>, half: &Half<'_>) -> bool
    ensures { IsTrue result
        ↔ BoundEnd half.now.end partial.now.task partial.now.prefix half.now.items.now half.now.places.now }
{
    are_whole(partial, half) && have_signs(half) && bound_all(partial, half)
}

/// All prices together, in ticks.
pub fn total_of(prices: &[i64]) -> i64
    requires few { length prices.now ≤ 64 }
    requires small { AreSmall prices.now }
    ensures value { result ≡ total prices.now }
    ensures bounded { unsigned_abs result ≤ 640000000000000 }
{
    let mut sum = 0;
    for price in prices {
        sum += *price;
    }
    sum
}

/// All prices for one end together, with the hold index so far. None where they are no prices of what the prefix leaves.
fn end_of(partial: &Partial<'_>, half: &Half<'_>) -> Option<i64>
    ensures found { IfSome result (λ end. BoundEnd half.now.end partial.now.task partial.now.prefix half.now.items.now half.now.places.now
        × (end ≡ hold_index partial.now.task partial.now.prefix +ℤ (total half.now.items.now +ℤ total half.now.places.now))) }
    ensures none { IfNone result (BoundEnd half.now.end partial.now.task partial.now.prefix half.now.items.now half.now.places.now → ⊥) }
    ensures bounded { IfSome result (λ end. unsigned_abs end ≤ 2000000000000000) }
{
    if !bound_end(partial, half) {
        return None;
    }
    let so_far = hold_index_of(partial.task(), partial.prefix()).0;
    Some(so_far + (total_of(half.items) + total_of(half.places)))
}

/// From the hold index so far with all lower prices to the same with all upper prices, in ticks. Every placement that
/// begins with the prefix lies between them. None where they are no prices of what the prefix leaves.
pub fn span(p: &Partial<'_>, x: &Prices) -> Option<(i64, i64)>
    ensures found { IfSome result (λ ends. ArePricesOf p.now.task p.now.prefix x.now
        × (ends ≡ price_span p.now.task p.now.prefix x.now)) }
    ensures none { IfNone result (ArePricesOf p.now.task p.now.prefix x.now → ⊥) }
    ensures within { IfSome result (λ ends. (rest : List ℕ) → IsAdmissible p.now.task (p.now.prefix ++ rest)
        → IsRising p.now.task (p.now.prefix ++ rest)
        → IsWithin ends (hold_index p.now.task (p.now.prefix ++ rest))) }
    ensures bounded { IfSome result (λ ends. (unsigned_abs ends.0 ≤ 2000000000000000) × (unsigned_abs ends.1 ≤ 2000000000000000)) }
{
    let low = end_of(
        p,
        &Half {
            end: End::Low,
            items: x.lower_items.as_slice(),
            places: x.lower_places.as_slice(),
        },
    )?;
    let high = end_of(
        p,
        &Half {
            end: End::High,
            items: x.upper_items.as_slice(),
            places: x.upper_places.as_slice(),
        },
    )?;
    Some((low, high))
}
