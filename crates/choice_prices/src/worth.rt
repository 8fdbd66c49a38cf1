//! What all that there is is worth.

ghost use Rattle.std.specs.Prelude.{◌≡◌, ◌≤◌, ◌<◌, ◌*ℤ◌, ◌∷◌, [], ℕ, pos, unsigned_abs, if◌then◌else◌, All, length};
ghost use Rattle.std.specs.List.{list_any};
ghost use Rattle.base_words.specs.Lists.{int_sum_by};
ghost use Rattle.hold_limits.specs.Placement.{loose_moment};
ghost use Rattle.position_set.specs.declared.set.PositionSet.{PositionSet};
ghost use Rattle.position_set.specs.Sets.{has};
ghost use Rattle.price_trees.specs.Prices.{Choice, stock, counted_from};
ghost use Rattle.tree_certificate.specs.declared.parts.Price.{Price};
ghost use Rattle.choice_prices.specs.Listing.{clique_places, limited_resource, end_of};
ghost use Rattle.choice_prices.specs.Ready.{start_at};
ghost use Rattle.choice_prices.specs.Tariffs.{IsBoundedPrice};
ghost use Rattle.tree_certificate.specs.Listed.{listed_prices};

use crate::limits::room_at;
use crate::tariff::price_if;
use hold_limits::{Task, hold_index_of};
use position_set::PositionSet;
use tree_certificate::{End, Price, PriceList};

/// The room that the loose loads leave under a limit, at its price.
fn room_price(task: &Task, price: &Price) -> i128
    requires { IsBoundedPrice price.now }
    ensures value { (choice : Choice) → result ≡ pos price.now.price
        *ℤ stock task.now choice (limited_resource task.now.hold price.now.of) }
    ensures bounded { unsigned_abs result ≤ 50000000000000000000000 }
{
    i128::from(price.price) * i128::from(room_at(task, price.of))
}

/// The room that the loose loads leave under all limits, at their prices.
fn room_prices(task: &Task, prices: &[Price]) -> i128
    requires few { length prices.now ≤ 194 }
    requires bounded_prices { All IsBoundedPrice prices.now }
    ensures value { (choice : Choice) → result ≡ int_sum_by (λ (p : Price). pos p.price
        *ℤ stock task.now choice (limited_resource task.now.hold p.of)) prices.now }
    ensures bounded { unsigned_abs result ≤ 9700000000000000000000000 }
{
    let mut sum = 0;
    for price in prices {
        sum += room_price(task, price);
    }
    sum
}

/// The moment of the loose loads, counted from an end.
fn loose_moment_from(task: &Task, end: End) -> i128
    ensures value { result ≡ counted_from (end_of end) (int_sum_by (loose_moment task.now.hold) task.now.loose) }
    ensures bounded { unsigned_abs result ≤ 248000000000 }
{
    let moment = i128::from(hold_index_of(task, &[]).0);
    match end {
        End::Low => moment,
        End::High => -moment,
    }
}

/// The moment of the loose loads, counted from the end of the prices, less what all that they leave under the limits is
/// worth.
pub fn start_of(task: &Task, list: &PriceList) -> i128
    requires few { length list.now.limits.items ≤ 194 }
    requires bounded_prices { All IsBoundedPrice list.now.limits.items }
    ensures value { (choice : Choice) → result ≡ start_at task.now choice (listed_prices list.now) }
    ensures bounded { unsigned_abs result ≤ 10000000000000000000000000 }
{
    loose_moment_from(task, list.end) - room_prices(task, list.limits.as_slice())
}

/// The positions that some container may have.
pub fn union_of(sets: &[PositionSet]) -> PositionSet
    ensures { (q : ℕ) → has result q ≡ list_any (λ (set : PositionSet). has set q) sets.now }
{
    let mut union = PositionSet::empty();
    for set in sets {
        union = union.union(*set);
    }
    union
}

/// Whether the union has the position with this number.
fn has_place(union: PositionSet, number: u32) -> bool
    requires { number < 64 }
    ensures { result ≡ list_any (has union) (number ∷ []) }
{
    union.contains(number as u8)
}

/// Whether the union has a position of the clique with this number.
fn meets_clique(union: PositionSet, cliques: &[PositionSet], number: u32) -> bool
    ensures { result ≡ list_any (has union) (clique_places cliques.now number) }
{
    match cliques.get(number as usize) {
        Some(clique) => !clique.intersection(union).is_empty(),
        None => false,
    }
}

/// The price of a position, where some container may have it.
fn position_worth(price: &Price, union: PositionSet) -> i128
    requires within { price.now.of < 64 }
    requires bounded_price { IsBoundedPrice price.now }
    ensures value { result ≡ pos price.now.price
        *ℤ pos (if list_any (has union) (price.now.of ∷ []) then 1 else 0) }
    ensures bounded { unsigned_abs result ≤ 10000000000000 }
{
    price_if(has_place(union, price.of), price)
}

/// The price of a clique, where some container may have a position of it.
fn clique_worth(cliques: &[PositionSet], price: &Price, union: PositionSet) -> i128
    requires { IsBoundedPrice price.now }
    ensures value { result ≡ pos price.now.price
        *ℤ pos (if list_any (has union) (clique_places cliques.now price.now.of) then 1 else 0) }
    ensures bounded { unsigned_abs result ≤ 10000000000000 }
{
    price_if(meets_clique(union, cliques, price.of), price)
}

/// The prices of the positions that some container may have.
pub fn worth_of_positions(prices: &[Price], union: PositionSet) -> i128
    requires few { length prices.now ≤ 64 }
    requires within { All (λ (p : Price). p.of < 64) prices.now }
    requires bounded_prices { All IsBoundedPrice prices.now }
    ensures value { result ≡ int_sum_by (λ (p : Price). pos p.price
        *ℤ pos (if list_any (has union) (p.of ∷ []) then 1 else 0)) prices.now }
    ensures bounded { unsigned_abs result ≤ 640000000000000 }
{
    let mut sum = 0;
    for price in prices {
        sum += position_worth(price, union);
    }
    sum
}

/// The prices of the cliques of which some container may have a position.
pub fn worth_of_cliques(cliques: &[PositionSet], prices: &[Price], union: PositionSet) -> i128
    requires few { length prices.now ≤ 256 }
    requires bounded_prices { All IsBoundedPrice prices.now }
    ensures value { result ≡ int_sum_by (λ (p : Price). pos p.price
        *ℤ pos (if list_any (has union) (clique_places cliques.now p.of) then 1 else 0)) prices.now }
    ensures bounded { unsigned_abs result ≤ 2560000000000000 }
{
    let mut sum = 0;
    for price in prices {
        sum += clique_worth(cliques, price, union);
    }
    sum
}
