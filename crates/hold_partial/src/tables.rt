//! What is looked up of a task while its containers are placed.

ghost use Rattle.std.specs.Prelude.{◌≡◌, ◌<◌, ◌≤ℤ◌, ◌*ℤ◌, ℕ, pos, true, false, length, slice_index_or, MatchOption};
ghost use Rattle.hold_reach.specs.declared.extent.Extent.TheVariants.{Reach};
ghost use Rattle.hold_partial.specs.Arrangement.{Ranked};
ghost use Rattle.hold_partial.specs.Kept.{AreLimitLists};
ghost use Rattle.hold_partial.specs.Levels.{IsSpanOnRanks};
ghost use Rattle.position_set.specs.Sets.{has};

use crate::arrangement::{Arrangement, by_influence};
use crate::demand::{Demands, demands_of};
use crate::limit_table::{LimitList, LimitMasses, allowed_masses, limits_at};
use crate::position_table::{PositionTable, position_table_of};
use crate::sides::Sides;
use arrayvec::ArrayVec;
use hold_limits::{Hold, Task};
use hold_reach::{Extent, Span};
use mass_units::Kg;
use position_set::PositionSet;

/// The limits that speak of each position, by its number.
pub type LimitLists = ArrayVec<LimitList, 64>;

/// What is looked up of a task.
#[derive(Drop)]
pub struct Tables {
    pub ranks: Arrangement,
    pub demands: Demands,
    pub positions: PositionTable,
    pub sides: Sides,
    pub limits: LimitLists,
    pub allowed: LimitMasses,
}

impl Tables {
    ghost use Rattle.hold_partial.specs.Kept.{AreTables, ArePrepared, factor_of};

    /// The tables of the task.
    pub fn of(task: &Task) -> Tables
        ensures { AreTables task.now result }
    {
        let hold = task.hold();
        let ranks = by_influence(hold);
        let demands = demands_of(task, ranks.as_slice());
        let positions = position_table_of(hold, ranks.as_slice());
        let sides = Sides::of(hold, ranks.as_slice());
        Tables {
            ranks,
            demands,
            positions,
            sides,
            limits: limit_lists(hold),
            allowed: allowed_masses(hold),
        }
    }

    /// By how much one kilogram moves the hold index, in ticks, or the lateral difference, in kilograms, on the position of
    /// a rank.
    fn factor_at(&self, extent: Extent, rank: u8) -> i32
        requires few { rank < 64 }
        requires known { rank < length self.now.ranks.items }
        ensures { result ≡ factor_of extent self.now rank }
    {
        match extent {
            Extent::Reach | Extent::WideReach => self.ranks[rank as usize].0,
            Extent::LateralReach => self.sides.at(rank),
        }
    }

    fn amount_at(&self, extent: Extent, mass: Kg, rank: u8) -> i64
        requires few { rank < 64 }
        requires known { rank < length self.now.ranks.items }
        ensures { result ≡ pos mass.0 *ℤ factor_of extent self.now rank }
    {
        i64::from(mass.0) * i64::from(self.factor_at(extent, rank))
    }

    /// The number of the position of a rank.
    pub fn number_at(&self, rank: u8) -> u8
        requires { rank < length self.now.ranks.items }
        ensures { (d : Ranked) → result ≡ (slice_index_or self.now.ranks.items rank d).1 }
    {
        self.ranks[rank as usize].1
    }

    /// The span from the moment of a mass on the position of a rank to that on another.
    pub fn span_between(&self, mass: Kg, first: u8, last: u8) -> Span
        requires few { (first < 64) × (last < 64) }
        requires first_known { first < length self.now.ranks.items }
        requires last_known { last < length self.now.ranks.items }
        ensures low { result.low ≡ pos mass.0 *ℤ factor_of Reach self.now first }
        ensures high { result.high ≡ pos mass.0 *ℤ factor_of Reach self.now last }
    {
        Span {
            low: self.amount_at(Extent::Reach, mass, first),
            high: self.amount_at(Extent::Reach, mass, last),
        }
    }

    /// Of some ranks one with the least factor.
    fn least_at(&self, extent: Extent, places: PositionSet) -> Option<u8>
        requires prepared { ArePrepared self.now }
        requires known { (r : ℕ) → has places r ≡ true → r < length self.now.ranks.items }
        ensures { MatchOption result ((r : ℕ) → has places r ≡ false)
            (λ least. (least < 64) × (has places least ≡ true) × ((r : ℕ) → has places r ≡ true
            → factor_of extent self.now least ≤ℤ factor_of extent self.now r)) }
    {
        match extent {
            Extent::Reach | Extent::WideReach => places.first(),
            Extent::LateralReach => self.sides.leftmost(places),
        }
    }

    /// Of some ranks one with the greatest factor.
    fn greatest_at(&self, extent: Extent, places: PositionSet) -> Option<u8>
        requires prepared { ArePrepared self.now }
        requires known { (r : ℕ) → has places r ≡ true → r < length self.now.ranks.items }
        ensures { MatchOption result ((r : ℕ) → has places r ≡ false)
            (λ greatest. (greatest < 64) × (has places greatest ≡ true) × ((r : ℕ) → has places r ≡ true
            → factor_of extent self.now r ≤ℤ factor_of extent self.now greatest)) }
    {
        match extent {
            Extent::Reach | Extent::WideReach => places.last(),
            Extent::LateralReach => self.sides.rightmost(places),
        }
    }

    /// What a mass adds on some ranks, from the least to the greatest. None where there is no rank.
    pub fn amounts_on(&self, extent: Extent, mass: Kg, places: PositionSet) -> Option<Span>
        requires prepared { ArePrepared self.now }
        requires known { (r : ℕ) → has places r ≡ true → r < length self.now.ranks.items }
        ensures { IsSpanOnRanks (has places) (factor_of extent self.now) mass.0 result }
    {
        let least = self.least_at(extent, places)?;
        let greatest = self.greatest_at(extent, places)?;
        Some(Span {
            low: self.amount_at(extent, mass, least),
            high: self.amount_at(extent, mass, greatest),
        })
    }
}

fn limit_lists(hold: &Hold) -> LimitLists
    ensures { AreLimitLists hold.now result.items }
{
    let mut lists = LimitLists::new();
    for number in 0..hold.position_count() {
        lists.push(limits_at(hold, number));
    }
    lists
}
