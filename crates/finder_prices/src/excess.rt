//! How much more is asked for than there is, and the step of prices along it.

use crate::standing::Standing;
use base_words::NoMemory;
use finder_tables::{Load, Stowage, used_by};
use position_set::PositionSet;
use std::alloc::Global;

/// A step is this much of the way, at most, in parts of `WHOLE`.
pub const WHOLE: i128 = 1_024;

/// What is asked for more than there is: of each limit, and of each clique, in kilograms.
#[derive(Drop)]
pub struct Excess {
    pub limits: Vec<i64>,
    pub cliques: Vec<i64>,
}

impl Excess {
    /// The sum of the squares.
    pub fn norm(&self) -> i128 {
        squares(self.limits.as_slice()).saturating_add(squares(self.cliques.as_slice()))
    }
}

fn squares(numbers: &[i64]) -> i128 {
    let mut sum: i128 = 0;
    for number in numbers {
        let number = i128::from(*number);
        sum = sum.saturating_add(number.saturating_mul(number));
    }
    sum
}

/// What counts: nothing where there is more than enough at no price.
fn counted(over: i64, price: i64) -> i64 {
    if over <= 0 && price == 0 { 0 } else { over }
}

/// The excess of limits by a path, at some prices.
pub fn limit_excess(
    alloc: Global,
    load: &Load,
    prices: &[i64],
    path: &[u8],
) -> Result<Vec<i64>, NoMemory> {
    let stowage = Stowage::of(load, path);
    let mut excess = Vec::new(alloc);
    for (limit, price) in load.limits.as_slice().iter().zip(prices) {
        let over = stowage.load_of(limit).saturating_sub(limit.room);
        excess.push(counted(over, *price))?;
    }
    Ok(excess)
}

/// How many of a clique's one place are taken too many.
fn over_place(standing: &Standing, clique: PositionSet, used: PositionSet) -> i64 {
    if standing.is_live(clique) {
        i64::from(used.intersection(clique).size()) - 1
    } else {
        0
    }
}

/// The excess of cliques by a path, at some prices. A place is as much as a mass.
pub fn clique_excess(
    alloc: Global,
    cliques: &[PositionSet],
    standing: &Standing,
    unit: i64,
    prices: &[i64],
    path: &[u8],
) -> Result<Vec<i64>, NoMemory> {
    let used = used_by(path);
    let mut excess = Vec::new(alloc);
    for (clique, price) in cliques.iter().zip(prices) {
        let over = counted(over_place(standing, *clique, used), *price);
        excess.push(over.saturating_mul(unit))?;
    }
    Ok(excess)
}

/// A step of prices: with a force over a norm, to the most.
#[derive(Clone, Copy)]
pub struct Step {
    pub force: i128,
    pub norm: i128,
    pub most: i64,
}

impl Step {
    /// The price moved along an excess, rounded, and kept from zero to the most.
    fn moved(self, price: i64, over: i64) -> i64 {
        let half = self.norm.saturating_mul(WHOLE);
        let force = self.force.saturating_mul(i128::from(over));
        let by = force
            .saturating_mul(2)
            .saturating_add(half)
            .div_euclid(half.saturating_mul(2).max(1));
        let moved = i128::from(price).saturating_add(by).max(0);
        i64::try_from(moved).unwrap_or(self.most).min(self.most)
    }

    /// Moves the prices that have an excess along it.
    pub fn take(self, prices: &mut [i64], excess: &[i64]) {
        for (price, over) in prices.iter_mut().zip(excess) {
            if *over != 0 {
                *price = self.moved(*price, *over);
            }
        }
    }
}
