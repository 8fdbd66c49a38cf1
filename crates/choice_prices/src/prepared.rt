//! What is prepared of a list of prices, for one task.

ghost use Rattle.std.specs.Prelude.{◌≡◌, ◌≤◌, unsigned_abs, length, map, All};
ghost use Rattle.position_set.specs.Sets.{members};
ghost use Rattle.price_trees.specs.Narrowing.{goal, trimmed};
ghost use Rattle.price_trees.specs.Prices.{value};
ghost use Rattle.tree_certificate.specs.Listed.{listed_prices};
ghost use Rattle.choice_prices.specs.Listing.{IsClique, end_of, ArePriced};
ghost use Rattle.choice_prices.specs.Pricing.{ticks_of};

use crate::costs::{Sets, cheap_sets, least_costs};
use crate::tariff::{Tariff, tariffs_of};
use crate::worth::{start_of, union_of, worth_of_cliques, worth_of_positions};
use arrayvec::ArrayVec;
use hold_limits::Task;
use hold_reach::Span;
use position_set::PositionSet;
use tree_certificate::{End, PriceList};

/// A list of prices, with what is looked up of it.
#[derive(Drop)]
pub struct Prepared<'a> {
    pub task: &'a Task,
    pub cliques: &'a [PositionSet],
    pub list: &'a PriceList,
    /// By the number of a position.
    pub tariffs: ArrayVec<Tariff, 64>,
    /// What the value of every choice begins with: the moment of the loose loads, counted from the end of the prices,
    /// less what all that the loose loads leave under the limits is worth.
    pub start: i128,
}

/// The last of the ticks, counted from an end.
fn goal_of(end: End, ticks: Span) -> i128
    ensures value { result ≡ goal (ticks_of ticks) (end_of end) }
    ensures bounded { unsigned_abs result ≤ 10000000000000000000 }
{
    match end {
        End::Low => i128::from(ticks.high),
        End::High => -i128::from(ticks.low),
    }
}

impl<'a> Prepared<'a> {
    ghost use Rattle.choice_prices.specs.Ready.{IsPrepared, prices_in};

    /// What is prepared of a list that may stand in a certificate with these cliques.
    pub fn of(task: &'a Task, cliques: &'a [PositionSet], list: &'a PriceList) -> Prepared<'a>
        requires cliques { All (IsClique task.now) cliques.now }
        requires priced { ArePriced task.now.hold (length cliques.now) (listed_prices list.now) }
        ensures prepared { IsPrepared result }
        ensures task { result.task.now ≡ task.now }
        ensures of_cliques { result.cliques.now ≡ cliques.now }
        ensures of_list { result.list.now ≡ list.now }
    {
        Prepared {
            task,
            cliques,
            list,
            tariffs: tariffs_of(task, cliques, list),
            start: start_of(task, list),
        }
    }

    /// The value over a choice, in ticks.
    pub fn value(&self, sets: &[PositionSet]) -> i128
        requires { IsPrepared self.now }
        ensures value { result ≡ value self.now.task.now (map members sets.now) (prices_in self.now) }
        ensures bounded { unsigned_abs result ≤ 20000000000000000000000000 }
    {
        let union = union_of(sets);
        let least = least_costs(self.task, self.tariffs.as_slice(), sets);
        let positions = worth_of_positions(self.list.positions.as_slice(), union);
        let cliques = worth_of_cliques(self.cliques, self.list.cliques.as_slice(), union);
        self.start + least - positions - cliques
    }

    /// The last of the ticks, counted from the end of the prices.
    pub fn goal(&self, ticks: Span) -> i128
        ensures value { result ≡ goal (ticks_of ticks) (prices_in self.now).end }
        ensures bounded { unsigned_abs result ≤ 10000000000000000000 }
    {
        goal_of(self.list.end, ticks)
    }

    /// The choice without the positions on which the value would pass the ticks.
    pub fn trimmed(&self, ticks: Span, sets: &[PositionSet]) -> Sets
        requires { IsPrepared self.now }
        ensures { map members result.items
            ≡ trimmed self.now.task.now (ticks_of ticks) (prices_in self.now) (map members sets.now) }
    {
        let slack = self.goal(ticks) - self.value(sets);
        cheap_sets(self.task, self.tariffs.as_slice(), slack, sets)
    }
}
