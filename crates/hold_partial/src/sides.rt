//! The sides of the positions of a hold.

ghost use Rattle.std.specs.Prelude.{◌≡◌, ◌<◌, ◌≤ℤ◌, ◌&&◌, ℕ, pos, int_lt, nat_lt, true, false, length, MatchOption};
ghost use Rattle.hold_limits.specs.Lateral.{side_at};
ghost use Rattle.hold_limits.specs.Faults.{IsLawfulHold};
ghost use Rattle.hold_partial.specs.Arrangement.{IsByInfluence};
ghost use Rattle.position_set.specs.Sets.{has, Stands};
ghost use Rattle.hold_partial.specs.Tables.{IsSides, AreApart, side_in};

use crate::arrangement::{Ranked, ranks_of};
use hold_limits::Hold;
use position_set::PositionSet;

/// The positions on the right and on the left, by their ranks in the order of influence.
#[derive(Clone, Copy, Debug)]
pub struct Sides {
    pub right: PositionSet,
    pub left: PositionSet,
}

fn is_on_right(hold: &Hold, number: u8) -> bool
    ensures { result ≡ int_lt (pos 0) (side_at hold.now number) }
{
    hold.side_at(number) > 0
}

fn is_on_left(hold: &Hold, number: u8) -> bool
    ensures { result ≡ int_lt (side_at hold.now number) (pos 0) }
{
    hold.side_at(number) < 0
}

fn right_positions(hold: &Hold) -> PositionSet
    ensures value { Stands result
        (λ q. nat_lt q (length hold.now.positions) && int_lt (pos 0) (side_at hold.now q)) }
    ensures lawful { IsLawfulHold hold.now }
{
    let mut set = PositionSet::empty();
    for number in 0..hold.position_count() {
        set = set.with_if(number, is_on_right(hold, number));
    }
    set
}

fn left_positions(hold: &Hold) -> PositionSet
    ensures value { Stands result
        (λ q. nat_lt q (length hold.now.positions) && int_lt (side_at hold.now q) (pos 0)) }
    ensures lawful { IsLawfulHold hold.now }
{
    let mut set = PositionSet::empty();
    for number in 0..hold.position_count() {
        set = set.with_if(number, is_on_left(hold, number));
    }
    set
}

impl Sides {
    /// The sides of the positions of the hold.
    pub fn of(hold: &Hold, ranks: &[Ranked]) -> Sides
        requires { IsByInfluence hold.now ranks.now }
        ensures { IsSides hold.now ranks.now result }
    {
        Sides {
            right: ranks_of(right_positions(hold), ranks),
            left: ranks_of(left_positions(hold), ranks),
        }
    }

    /// The side of the position of a rank: 1 on the right, -1 on the left, and 0 on neither.
    pub fn at(&self, rank: u8) -> i32
        requires { rank < 64 }
        ensures { result ≡ side_in self.now rank }
    {
        if self.right.contains(rank) {
            1
        } else if self.left.contains(rank) {
            -1
        } else {
            0
        }
    }

    /// Of some ranks one that is furthest to the left.
    pub fn leftmost(&self, places: PositionSet) -> Option<u8>
        requires { AreApart self.now }
        ensures { MatchOption result ((r : ℕ) → has places r ≡ false)
            (λ least. (least < 64) × (has places least ≡ true)
            × ((r : ℕ) → has places r ≡ true → side_in self.now least ≤ℤ side_in self.now r)) }
    {
        if let Some(rank) = places.intersection(self.left).first() {
            return Some(rank);
        }
        if let Some(rank) = places.difference(self.right).first() {
            return Some(rank);
        }
        places.first()
    }

    /// Of some ranks one that is furthest to the right.
    pub fn rightmost(&self, places: PositionSet) -> Option<u8>
        requires { AreApart self.now }
        ensures { MatchOption result ((r : ℕ) → has places r ≡ false)
            (λ greatest. (greatest < 64) × (has places greatest ≡ true)
            × ((r : ℕ) → has places r ≡ true → side_in self.now r ≤ℤ side_in self.now greatest)) }
    {
        if let Some(rank) = places.intersection(self.right).first() {
            return Some(rank);
        }
        if let Some(rank) = places.difference(self.left).first() {
            return Some(rank);
        }
        places.first()
    }
}
