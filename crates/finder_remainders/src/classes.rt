//! Positions of one container with which no tick leaves the remainder that all hold indices leave.

ghost use Rattle.std.specs.Prelude.{◌≡◌, ℕ, ◌-ℤ◌, ◌↔◌, IsTrue, Any};
ghost use Rattle.std.specs.Int.{◌∣◌};
ghost use Rattle.position_set.specs.Sets.{has};
ghost use Rattle.price_trees.specs.Trees.{IsMultiple};
ghost use Rattle.hold_choices.specs.Narrowed.{ticks_between};
ghost use Rattle.finder_remainders.specs.Remainders.{IsAllowed, IsMetBy};

use crate::allowed::allows;
use crate::divisors::{divisor_from, divisor_without};
use crate::spots::{Spot, index_of_firsts, spots_of};
use arrayvec::ArrayVec;
use finder_tables::{Load, TickSpan};
use position_set::PositionSet;

/// Positions of the container at a rank on which its hold indices leave the same remainder, one that no tick leaves.
#[derive(Clone, Copy, Debug)]
pub struct Class {
    pub rank: usize,
    pub positions: PositionSet,
    /// How many positions of the container are allowed, and how many it has.
    allowed: u64,
    all: u64,
}

impl Class {
    /// The one of the container that has the lesser share of its positions left; the first where they are equal.
    fn scarcer(best: Option<Class>, other: Class) -> Option<Class> {
        match best {
            Some(own)
                if own.allowed.saturating_mul(other.all) <= other.allowed.saturating_mul(own.all) =>
                { Some(own) }
            _ => Some(other),
        }
    }
}

/// Whether a number is a multiple of the divisor; of 0 that is 0 alone.
fn divides(divisor: u64, number: u64) -> bool
    ensures { IsTrue result ↔ (divisor ∣ number) }
{
    if divisor == 0 {
        number == 0
    } else {
        number % divisor == 0
    }
}

/// The positions of the spots whose remainder no tick leaves.
fn forbidden(ticks: TickSpan, spots: &[Spot], divisor: u64) -> PositionSet
    ensures { (q : ℕ) → IsTrue (has result q) ↔ IsMetBy (λ index. IsAllowed (ticks_between ticks.low ticks.high) divisor index → ⊥) spots.now q }
{
    let mut positions = PositionSet::empty();
    for spot in spots {
        let missed = !allows(ticks, spot.index, divisor);
        positions = positions.with_if(spot.position, missed);
    }
    positions
}

/// The positions of the spots that leave the same remainder as an index.
fn alike(index: i64, spots: &[Spot], divisor: u64) -> PositionSet
    ensures { (q : ℕ) → IsTrue (has result q) ↔ IsMetBy (λ other. IsMultiple divisor (other -ℤ index)) spots.now q }
{
    let mut positions = PositionSet::empty();
    for spot in spots {
        let same = divides(divisor, spot.index.abs_diff(index));
        positions = positions.with_if(spot.position, same);
    }
    positions
}

/// The hold index at a position among the spots.
fn index_at(spots: &[Spot], position: u8) -> Option<i64> {
    let spot = spots.iter().find(|spot| spot.position == position)?;
    Some(spot.index)
}

/// A class of the container at a rank, where it has one: that of the first position that is forbidden.
fn class_at(ticks: TickSpan, spots: &[Spot], rank: usize, divisor: u64) -> Option<Class> {
    let forbidden = forbidden(ticks, spots, divisor);
    let index = index_at(spots, forbidden.first()?)?;
    let all = spots.len() as u64;
    Some(Class {
        rank,
        positions: alike(index, spots, divisor),
        allowed: all.saturating_sub(u64::from(forbidden.size())),
        all,
    })
}

/// For each container the greatest number that divides all that the hold indices on its positions differ by.
fn divisors_of(load: &Load, sets: &[PositionSet], index: i64) -> ArrayVec<u64, 60> {
    let mut divisors = ArrayVec::new();
    for (rank, set) in sets.iter().enumerate() {
        let spots = spots_of(load, rank, *set, index);
        let _ = divisors.try_push(divisor_from(index, spots.as_slice()));
    }
    divisors
}

/// A class that no tick allows, of the container of which the least share is left. None where there is none.
pub fn forbidden_class(load: &Load, ticks: TickSpan, sets: &[PositionSet]) -> Option<Class> {
    let index = index_of_firsts(load, sets);
    let divisors = divisors_of(load, sets, index);
    let mut best = None;
    for (rank, set) in sets.iter().enumerate() {
        let divisor = divisor_without(divisors.as_slice(), rank);
        if divisor == 1 || set.only().is_some() {
            continue;
        }
        let spots = spots_of(load, rank, *set, index);
        if let Some(class) = class_at(ticks, spots.as_slice(), rank, divisor) {
            best = Class::scarcer(best, class);
        }
    }
    best
}
