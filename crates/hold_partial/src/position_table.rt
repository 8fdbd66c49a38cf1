//! What a container on a position does to the other containers, ready to look up.

ghost use Rattle.std.specs.Prelude.{◌≡◌, ◌<◌, ◌≤◌, ◌&&◌, ◌==◌, nat_lt, nat_le, pos, ◌*ℤ◌, unsigned_abs, Some, length, slice_get};
ghost use Rattle.hold_limits.specs.Enumeration.{exclude};
ghost use Rattle.hold_limits.specs.Faults.{IsLawfulHold};
ghost use Rattle.hold_partial.specs.Arrangement.{IsByInfluence, ranked_of};
ghost use Rattle.position_set.specs.Sets.{Stands};
ghost use Rattle.hold_partial.specs.Tables.{IsPositionEntry, IsPositionTable};

use crate::arrangement::{Ranked, ranks_of};
use arrayvec::ArrayVec;
use hold_limits::Hold;
use mass_units::Kg;
use position_set::PositionSet;

/// What is looked up of a position.
#[derive(Clone, Copy, Debug, Default)]
pub struct PositionEntry {
    /// Ticks of the index for each kilogram.
    pub influence: i32,
    /// 1 on the right, -1 on the left, and 0 on neither.
    pub side: i32,
    /// Its rank in the order of influence.
    pub rank: u8,
    /// The positions that exclude it, by number.
    pub excluding: PositionSet,
    /// The positions that a container on it blocks for the others, itself among them, by their ranks in the order
    /// of influence.
    pub blocked_ranks: PositionSet,
    /// The positions that a container on it closes to its twins, which are those with no greater number, by their ranks
    /// in the order of influence.
    pub closed_ranks: PositionSet,
}

impl PositionEntry {
    /// The moment of a mass on the position, in ticks.
    pub fn moment(&self, mass: Kg) -> i64
        requires light { mass.0 ≤ 20000 }
        requires near { unsigned_abs self.now.influence ≤ 100000 }
        ensures { result ≡ pos mass.0 *ℤ self.now.influence }
    {
        i64::from(mass.0) * i64::from(self.influence)
    }

    /// What a mass on the position adds to the lateral difference, in kilograms.
    pub fn lateral(&self, mass: Kg) -> i64
        requires light { mass.0 ≤ 20000 }
        requires near { unsigned_abs self.now.side ≤ 1 }
        ensures { result ≡ pos mass.0 *ℤ self.now.side }
    {
        i64::from(mass.0) * i64::from(self.side)
    }
}

/// An entry for each position of the hold, by number.
pub type PositionTable = ArrayVec<PositionEntry, 64>;

fn excluding_positions(hold: &Hold, number: u8) -> PositionSet
    ensures { Stands result
        (λ a. nat_lt a (length hold.now.positions) && exclude hold.now a number) }
{
    let mut set = PositionSet::empty();
    for other in 0..hold.position_count() {
        set = set.with_if(other, hold.exclude_each_other(other, number));
    }
    set
}

fn closed_positions(hold: &Hold, number: u8) -> PositionSet
    ensures value { Stands result (λ a. nat_lt a (length hold.now.positions) && nat_le a number) }
    ensures lawful { IsLawfulHold hold.now }
{
    let mut set = PositionSet::empty();
    for other in 0..hold.position_count() {
        set = set.with_if(other, other <= number);
    }
    set
}

fn rank_of(hold: &Hold, ranks: &[Ranked], number: u8) -> u8
    requires arranged { IsByInfluence hold.now ranks.now }
    requires few { length ranks.now ≤ 64 }
    requires known { number < length hold.now.positions }
    ensures { slice_get ranks.now result ≡ Some (ranked_of hold.now number) }
{
    for (rank, (_, other)) in ranks.iter().enumerate() {
        if *other == number {
            return rank as u8;
        }
    }
    unreachable!()
}

fn entry_of(hold: &Hold, ranks: &[Ranked], number: u8) -> PositionEntry
    requires arranged { IsByInfluence hold.now ranks.now }
    requires few { length ranks.now ≤ 64 }
    requires known { number < length hold.now.positions }
    ensures { IsPositionEntry hold.now ranks.now number result }
{
    let excluding = excluding_positions(hold, number);
    PositionEntry {
        influence: hold.influence_at(number),
        side: hold.side_at(number),
        rank: rank_of(hold, ranks, number),
        excluding,
        blocked_ranks: ranks_of(excluding.with(number), ranks),
        closed_ranks: ranks_of(closed_positions(hold, number), ranks),
    }
}

/// The entries of the positions, over the positions by influence.
pub fn position_table_of(hold: &Hold, ranks: &[Ranked]) -> PositionTable
    requires { IsByInfluence hold.now ranks.now }
    ensures { IsPositionTable hold.now ranks.now result.items }
{
    let mut entries = PositionTable::new();
    for number in 0..hold.position_count() {
        entries.push(entry_of(hold, ranks, number));
    }
    entries
}
