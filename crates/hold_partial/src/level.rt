//! What is kept of a prefix, so that one position more or fewer costs little.

ghost use Rattle.std.specs.Prelude.{◌≡◌, ◌<◌, ◌≤◌, ◌&&◌, ◌||◌, ◌==◌, ℕ, not, pos, ◌+ℤ◌, ◌*ℤ◌, unsigned_abs};
ghost use Rattle.position_set.specs.Sets.{has};

use crate::demand::Demand;
use crate::position_table::PositionEntry;
use mass_units::Ticks;
use position_set::PositionSet;

/// What is kept of a prefix.
#[derive(Clone, Copy, Debug)]
pub struct Level {
    /// The positions that it uses, by number.
    pub used: PositionSet,
    /// The positions that it blocks for the remaining containers, by their ranks in the order of influence.
    pub blocked_ranks: PositionSet,
    /// Its hold index.
    pub index: Ticks,
    /// Its lateral difference, in kilograms.
    pub lateral: i64,
    /// Whether of any two twins the later in branch order has the greater number.
    pub rising: bool,
}

impl Level {
    /// The level of the prefix with one container more, on the position with this number, which may be closed to the
    /// container by its twins.
    pub fn with(&self, demand: &Demand, entry: &PositionEntry, number: u8, closed: bool) -> Level
        requires number_known { number < 64 }
        requires index_bounded { unsigned_abs self.now.index.0 ≤ 320000000000 }
        requires lateral_bounded { unsigned_abs self.now.lateral ≤ 320000000000 }
        requires mass_bounded { demand.now.mass.0 ≤ 20000 }
        requires influence_bounded { unsigned_abs entry.now.influence ≤ 100000 }
        requires side_bounded { unsigned_abs entry.now.side ≤ 1 }
        ensures used { (q : ℕ) → has result.used q ≡ (has self.now.used q || (q == number)) }
        ensures blocked_ranks { (r : ℕ) → has result.blocked_ranks r
            ≡ (has self.now.blocked_ranks r || has entry.now.blocked_ranks r) }
        ensures index { result.index.0
            ≡ self.now.index.0 +ℤ (pos demand.now.mass.0 *ℤ entry.now.influence) }
        ensures lateral { result.lateral
            ≡ self.now.lateral +ℤ (pos demand.now.mass.0 *ℤ entry.now.side) }
        ensures rising { result.rising ≡ (self.now.rising && not closed) }
    {
        Level {
            used: self.used.with(number),
            blocked_ranks: self.blocked_ranks.union(entry.blocked_ranks),
            index: Ticks(self.index.0 + entry.moment(demand.mass)),
            lateral: self.lateral + entry.lateral(demand.mass),
            rising: self.rising & !closed,
        }
    }
}
