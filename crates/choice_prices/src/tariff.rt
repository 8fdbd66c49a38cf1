//! What a container costs on a position, made ready: so much for each kilogram, and a fee.

ghost use Rattle.std.specs.Prelude.{◌≡◌, ◌≤◌, ◌<◌, ◌+ℤ◌, ◌*ℤ◌, ◌∷◌, [], pos, unsigned_abs, if◌then◌else◌, All, length, map};
ghost use Rattle.std.specs.List.{range_with_len};
ghost use Rattle.base_words.specs.Lists.{int_sum_by};
ghost use Rattle.hold_parts.specs.Limits.{is_listed};
ghost use Rattle.price_trees.specs.Prices.{counted_from};
ghost use Rattle.hold_limits.specs.Placement.{influence_at};
ghost use Rattle.tree_certificate.specs.Listed.{listed_prices};
ghost use Rattle.tree_certificate.specs.declared.parts.Price.{Price};
ghost use Rattle.choice_prices.specs.Listing.{clique_places, limited_resource, prices_of, end_of, ArePriced};
ghost use Rattle.choice_prices.specs.Tariffs.{taken_by_mass, tariff_at, IsBoundedPrice, IsBoundedTariff};

use crate::limits::taken_at;
use arrayvec::ArrayVec;
use hold_limits::{Hold, Task};
use mass_units::Kg;
use position_set::PositionSet;
use tree_certificate::{End, Price, PriceList};

/// What a container costs on a position, in ticks: so much for each kilogram, and a fee.
#[derive(Clone, Copy, Debug, Default, PartialEq, Eq)]
pub struct Tariff {
    pub rate: i128,
    pub fee: i128,
}

impl Tariff {
    /// What a mass costs.
    pub fn cost(self, mass: Kg) -> i128
        requires light { mass.0 ≤ 20000 }
        requires bounded_tariff { IsBoundedTariff self }
        ensures value { result ≡ pos mass.0 *ℤ self.rate +ℤ self.fee }
        ensures bounded { unsigned_abs result ≤ 50000000000000000000 }
    {
        i128::from(mass.0) * self.rate + self.fee
    }
}

/// By how much a kilogram on a position moves the hold index, counted from an end.
fn influence_from(end: End, hold: &Hold, position: u8) -> i128
    ensures value { result ≡ counted_from (end_of end) (influence_at hold.now position) }
    ensures bounded { unsigned_abs result ≤ 2147483648 }
{
    let influence = i128::from(hold.influence_at(position));
    match end {
        End::Low => influence,
        End::High => -influence,
    }
}

/// The price of what each kilogram on a position takes of a limit.
fn limit_price(hold: &Hold, price: &Price, position: u8) -> i128
    requires { IsBoundedPrice price.now }
    ensures value { result ≡ pos price.now.price
        *ℤ taken_by_mass hold.now (limited_resource hold.now price.now.of) position }
    ensures bounded { unsigned_abs result ≤ 10000000000000 }
{
    i128::from(price.price) * i128::from(taken_at(hold, price.of, position))
}

/// The price of what each kilogram on a position takes of all limits.
fn limit_prices(hold: &Hold, prices: &[Price], position: u8) -> i128
    requires few { length prices.now ≤ 194 }
    requires bounded_prices { All IsBoundedPrice prices.now }
    ensures value { result ≡ int_sum_by (λ (p : Price). pos p.price
        *ℤ taken_by_mass hold.now (limited_resource hold.now p.of) position) prices.now }
    ensures bounded { unsigned_abs result ≤ 1940000000000000 }
{
    let mut sum = 0;
    for price in prices {
        sum += limit_price(hold, price, position);
    }
    sum
}

/// A price where it is due, and else nothing.
pub fn price_if(due: bool, price: &Price) -> i128
    requires { IsBoundedPrice price.now }
    ensures value { result ≡ pos price.now.price *ℤ pos (if due then 1 else 0) }
    ensures bounded { unsigned_abs result ≤ 10000000000000 }
{
    if due { i128::from(price.price) } else { 0 }
}

/// Whether the number is that of the position.
fn is_at(number: u32, position: u8) -> bool
    ensures { result ≡ is_listed (number ∷ []) position }
{
    number == u32::from(position)
}

/// The price of a place on a position.
fn place_price(price: &Price, position: u8) -> i128
    requires { IsBoundedPrice price.now }
    ensures value { result ≡ pos price.now.price
        *ℤ pos (if is_listed (price.now.of ∷ []) position then 1 else 0) }
    ensures bounded { unsigned_abs result ≤ 10000000000000 }
{
    price_if(is_at(price.of, position), price)
}

/// The prices of a place on a position.
fn place_prices(prices: &[Price], position: u8) -> i128
    requires few { length prices.now ≤ 64 }
    requires bounded_prices { All IsBoundedPrice prices.now }
    ensures value { result ≡ int_sum_by (λ (p : Price). pos p.price
        *ℤ pos (if is_listed (p.of ∷ []) position then 1 else 0)) prices.now }
    ensures bounded { unsigned_abs result ≤ 640000000000000 }
{
    let mut sum = 0;
    for price in prices {
        sum += place_price(price, position);
    }
    sum
}

/// Whether the clique with this number has the position.
fn is_in_clique(cliques: &[PositionSet], number: u32, position: u8) -> bool
    requires { position < 64 }
    ensures { result ≡ is_listed (clique_places cliques.now number) position }
{
    match cliques.get(number as usize) {
        Some(clique) => clique.contains(position),
        None => false,
    }
}

/// The price of a place in a clique, where it has the position.
fn clique_price(cliques: &[PositionSet], price: &Price, position: u8) -> i128
    requires within { position < 64 }
    requires bounded_price { IsBoundedPrice price.now }
    ensures value { result ≡ pos price.now.price
        *ℤ pos (if is_listed (clique_places cliques.now price.now.of) position then 1 else 0) }
    ensures bounded { unsigned_abs result ≤ 10000000000000 }
{
    price_if(is_in_clique(cliques, price.of, position), price)
}

/// The prices of a place in the cliques that have a position.
fn clique_prices(cliques: &[PositionSet], prices: &[Price], position: u8) -> i128
    requires within { position < 64 }
    requires few { length prices.now ≤ 256 }
    requires bounded_prices { All IsBoundedPrice prices.now }
    ensures value { result ≡ int_sum_by (λ (p : Price). pos p.price
        *ℤ pos (if is_listed (clique_places cliques.now p.of) position then 1 else 0)) prices.now }
    ensures bounded { unsigned_abs result ≤ 2560000000000000 }
{
    let mut sum = 0;
    for price in prices {
        sum += clique_price(cliques, price, position);
    }
    sum
}

/// The tariff of a position.
fn tariff_on(hold: &Hold, cliques: &[PositionSet], list: &PriceList, position: u8) -> Tariff
    requires within { position < 64 }
    requires priced { ArePriced hold.now (length cliques.now) (listed_prices list.now) }
    ensures value { result ≡ tariff_at hold.now (prices_of hold.now cliques.now (listed_prices list.now)) position }
    ensures bounded { IsBoundedTariff result }
{
    let by_influence = influence_from(list.end, hold, position);
    let by_limits = limit_prices(hold, list.limits.as_slice(), position);
    let by_place = place_prices(list.positions.as_slice(), position);
    let by_cliques = clique_prices(cliques, list.cliques.as_slice(), position);
    Tariff {
        rate: by_influence + by_limits,
        fee: by_place + by_cliques,
    }
}

/// The tariffs of all positions, by their numbers.
pub fn tariffs_of(task: &Task, cliques: &[PositionSet], list: &PriceList) -> ArrayVec<Tariff, 64>
    requires { ArePriced task.now.hold (length cliques.now) (listed_prices list.now) }
    ensures value { result.items
        ≡ map (tariff_at task.now.hold (prices_of task.now.hold cliques.now (listed_prices list.now))) (range_with_len 0 64) }
    ensures bounded { All IsBoundedTariff result.items }
{
    let hold = task.hold();
    let mut tariffs = ArrayVec::new();
    for position in 0..64 {
        tariffs.push(tariff_on(hold, cliques, list, position));
    }
    tariffs
}
