//! Which lists of prices may stand in a certificate.

ghost use Rattle.std.specs.Prelude.{◌≡◌, ◌↔◌, length, position, None};
ghost use Rattle.tree_certificate.specs.Listed.{listed_prices};
ghost use Rattle.choice_prices.specs.Listing.{limited_resources, ArePriced, is_price_wrong, has_too_many, price_fault};

use crate::fault::PriceFault;
use hold_limits::{Hold, Task};
use tree_certificate::{Price, PriceList};

/// The greatest price, in ticks for each kilogram or place.
const MOST_PRICE: u64 = 10_000_000_000_000;

const MOST_POSITIONS: usize = 64;

const MOST_LIMITS: usize = 194;

const MOST_CLIQUES: usize = 256;

/// How many limits a hold has. A lateral limit counts twice, once for each way.
fn limit_count(hold: &Hold) -> usize
    ensures { result ≡ length (limited_resources hold.now) }
{
    let lateral = if hold.lateral().is_some() { 2 } else { 0 };
    hold.combined().len() + hold.cumulative().len() + lateral
}

fn is_wrong(count: usize, price: &Price) -> bool
    ensures { result ≡ is_price_wrong count price.now }
{
    price.of as usize >= count || price.price > MOST_PRICE
}

/// The place of the first price that is too great, or of none of so many.
fn first_wrong(count: usize, prices: &[Price]) -> Option<usize>
    ensures { result ≡ position (is_price_wrong count) prices.now }
{
    prices.iter().position(|price| is_wrong(count, price))
}

fn are_too_many(list: &PriceList) -> bool
    ensures { result ≡ has_too_many (listed_prices list.now) }
{
    list.positions.len() > MOST_POSITIONS
        || list.limits.len() > MOST_LIMITS
        || list.cliques.len() > MOST_CLIQUES
}

fn fault_of(hold: &Hold, cliques: usize, list: &PriceList) -> Option<PriceFault>
    ensures { result ≡ price_fault hold.now cliques (listed_prices list.now) }
{
    if are_too_many(list) {
        return Some(PriceFault::TooMany);
    }
    if let Some(place) = first_wrong(hold.positions().len(), list.positions.as_slice()) {
        return Some(PriceFault::Position(place));
    }
    if let Some(place) = first_wrong(limit_count(hold), list.limits.as_slice()) {
        return Some(PriceFault::Limit(place));
    }
    if let Some(place) = first_wrong(cliques, list.cliques.as_slice()) {
        return Some(PriceFault::Clique(place));
    }
    None
}

/// What is wrong with a list of prices of a certificate with so many cliques, if anything is.
pub fn price_fault(task: &Task, cliques: usize, list: &PriceList) -> Option<PriceFault>
    ensures value { result ≡ price_fault task.now.hold cliques (listed_prices list.now) }
    ensures meaning { (result ≡ None) ↔ ArePriced task.now.hold cliques (listed_prices list.now) }
{
    fault_of(task.hold(), cliques, list)
}
