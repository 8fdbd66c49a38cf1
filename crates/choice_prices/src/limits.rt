//! The limits of a hold by their numbers in a certificate.

ghost use Rattle.std.specs.Prelude.{◌≡◌, ◌≤◌, unsigned_abs, slice_get, option_map};
ghost use Rattle.hold_limits.specs.Placement.{loose_lateral};
ghost use Rattle.price_trees.specs.Prices.{Choice, stock, lateral_most};
ghost use Rattle.base_words.specs.Lists.{int_sum_by};
ghost use Rattle.choice_prices.specs.Listing.{limited_resource, limited_resources, lateral_resources};
ghost use Rattle.choice_prices.specs.Tariffs.{resource_of, taken_by_mass};

use hold_limits::{Hold, Limit, Task, lateral_difference_of};
use hold_reach::load_loose;

/// A limit that may have a price.
#[derive(Clone, Copy)]
pub enum PricedLimit<'a> {
    /// On the mass of some positions together.
    Mass(Limit<'a>),
    /// On the mass on the right more than on the left.
    RightOverLeft,
    /// On the mass on the left more than on the right.
    LeftOverRight,
}

/// The limit with this number among the two of a lateral limit.
fn lateral_at(hold: &Hold, number: usize) -> Option<PricedLimit<'_>>
    ensures { option_map resource_of result ≡ slice_get (lateral_resources hold.now.lateral) number }
{
    if hold.lateral().is_none() {
        return None;
    }
    match number {
        0 => Some(PricedLimit::RightOverLeft),
        1 => Some(PricedLimit::LeftOverRight),
        _ => None,
    }
}

/// The limit with this number.
fn limit_at(hold: &Hold, number: usize) -> Option<PricedLimit<'_>>
    ensures { option_map resource_of result ≡ slice_get (limited_resources hold.now) number }
{
    let combined = hold.combined();
    let cumulative = hold.cumulative();
    if number < combined.len() {
        return Some(PricedLimit::Mass(Limit::Listed(&combined[number])));
    }
    let number = number - combined.len();
    if number < cumulative.len() {
        return Some(PricedLimit::Mass(Limit::Counted(&cumulative[number])));
    }
    lateral_at(hold, number - cumulative.len())
}

/// What each kilogram on a position takes of what a limit allows.
fn taken_of(hold: &Hold, limit: &PricedLimit<'_>, position: u8) -> i32
    ensures { result ≡ taken_by_mass hold.now (resource_of limit.now) position }
{
    match limit {
        PricedLimit::Mass(limit) => i32::from(limit.covers(position)),
        PricedLimit::RightOverLeft => hold.side_at(position),
        PricedLimit::LeftOverRight => -hold.side_at(position),
    }
}

/// What each kilogram on a position takes of what the limit with this number allows.
pub fn taken_at(hold: &Hold, number: u32, position: u8) -> i32
    ensures value { result ≡ taken_by_mass hold.now (limited_resource hold.now number) position }
    ensures bounded { unsigned_abs result ≤ 1 }
{
    match limit_at(hold, number as usize) {
        Some(limit) => taken_of(hold, &limit, position),
        None => 0,
    }
}

/// How much more the loose loads are on the right than on the left, in kilograms.
fn loose_difference(task: &Task) -> i64
    ensures value { result ≡ int_sum_by (loose_lateral task.now.hold) task.now.loose }
    ensures bounded { unsigned_abs result ≤ 2480000 }
{
    lateral_difference_of(task, &[])
}

/// The greatest difference that a lateral limit allows, in kilograms.
fn most_difference(hold: &Hold) -> u32
    ensures { result ≡ lateral_most hold.now }
{
    match hold.lateral() {
        Some(limit) => limit.most.0,
        None => 0,
    }
}

/// How much the loose loads leave of what a limit allows, in kilograms. It is below zero where they break it.
fn room_of(task: &Task, limit: &PricedLimit<'_>) -> i64
    ensures value { (choice : Choice) → result ≡ stock task.now choice (resource_of limit.now) }
    ensures bounded { unsigned_abs result ≤ 5000000000 }
{
    match limit {
        PricedLimit::Mass(limit) => i64::from(limit.most()) - i64::from(load_loose(task, limit)),
        PricedLimit::RightOverLeft => {
            i64::from(most_difference(task.hold())) - loose_difference(task)
        }
        PricedLimit::LeftOverRight => {
            i64::from(most_difference(task.hold())) + loose_difference(task)
        }
    }
}

/// How much the loose loads leave of what the limit with this number allows, in kilograms.
pub fn room_at(task: &Task, number: u32) -> i64
    ensures value { (choice : Choice)
        → result ≡ stock task.now choice (limited_resource task.now.hold number) }
    ensures bounded { unsigned_abs result ≤ 5000000000 }
{
    match limit_at(task.hold(), number as usize) {
        Some(limit) => room_of(task, &limit),
        None => 0,
    }
}
