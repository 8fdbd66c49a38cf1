//! One end of the tight reach of a placement.

ghost use Rattle.std.specs.Prelude.{◌≡◌, ◌≤◌, map, unsigned_abs};
ghost use Rattle.assignment_prices.specs.Priced.{AreSmall};
ghost use Rattle.assignment_prices.specs.Steps.{counted_from};
ghost use Rattle.tight_reach.specs.Candidates.{AreCandidates};
ghost use Rattle.tight_reach.specs.Ends.{IsReached, sum_of};

use crate::candidates::{Candidates, influences_of};
use arrayvec::ArrayVec;
use assignment::cheapest;
use assignment_prices::{End, total_of};
use hold_partial::Partial;

/// Prices for one end, in ticks, and whether there is a way.
#[derive(Drop)]
pub struct Reached {
    pub items: ArrayVec<i64, 60>,
    pub places: ArrayVec<i64, 64>,
    pub has_way: bool,
}

impl Reached {
    /// All prices together, in ticks.
    pub fn sum(&self) -> i64
        requires items { AreSmall self.now.items.items }
        requires places { AreSmall self.now.places.items }
        ensures value { result ≡ sum_of self.now }
        ensures bounded { unsigned_abs result ≤ 1280000000000000 }
    {
        total_of(self.items.as_slice()) + total_of(self.places.as_slice())
    }
}

/// Prices of containers, counted from that end.
fn items_from(end: End, prices: &ArrayVec<i64, 60>) -> ArrayVec<i64, 60>
    requires { AreSmall prices.now.items }
    ensures { result.items ≡ map (counted_from end) prices.now.items }
{
    let mut counted = ArrayVec::new();
    for at in 0..prices.len() {
        counted.push(end.count(&prices[at]));
    }
    counted
}

/// Prices of positions, counted from that end.
fn places_from(end: End, prices: &ArrayVec<i64, 64>) -> ArrayVec<i64, 64>
    requires { AreSmall prices.now.items }
    ensures { result.items ≡ map (counted_from end) prices.now.items }
{
    let mut counted = ArrayVec::new();
    for at in 0..prices.len() {
        counted.push(end.count(&prices[at]));
    }
    counted
}

/// The prices of the way that comes nearest to the end, if there is a way.
pub fn reach_of(partial: &Partial<'_>, candidates: &Candidates, end: End) -> Reached
    requires { AreCandidates partial.now.task partial.now.prefix candidates.now.items }
    ensures { IsReached end partial.now.task partial.now.prefix result }
{
    let influences = influences_of(partial.task().hold(), end);
    let assignment = cheapest(candidates.as_slice(), influences.as_slice());
    Reached {
        has_way: assignment.way.is_some(),
        items: items_from(end, &assignment.items),
        places: places_from(end, &assignment.places),
    }
}
