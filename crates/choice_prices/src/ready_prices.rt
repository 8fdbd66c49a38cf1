//! A list of prices, made ready for a task.

ghost use Rattle.std.specs.Prelude.{◌≡◌, ◌↔◌, ◌<ℤ◌, length, map, All, IfOk, IfErr, IsOk, IsTrue, Some};
ghost use Rattle.position_set.specs.Sets.{members};
ghost use Rattle.price_trees.specs.Narrowing.{goal, trimmed};
ghost use Rattle.price_trees.specs.Prices.{AreOf, value};
ghost use Rattle.tree_certificate.specs.Listed.{listed_prices};
ghost use Rattle.choice_prices.specs.Listing.{IsClique, prices_of, ArePriced, price_fault};
ghost use Rattle.choice_prices.specs.Pricing.{pricing_of, ticks_of};

use crate::costs::Sets;
use crate::fault::PriceFault;
use crate::prepared::Prepared;
use crate::price_faults::price_fault;
use hold_limits::Task;
use hold_reach::Span;
use position_set::PositionSet;
use std::marker::Model;
use tree_certificate::PriceList;

/// A list of prices of a certificate, made ready for the task that it is about.
#[derive(Drop)]
pub struct ReadyPrices<'a> {
    prepared: Prepared<'a>,
}

impl<'a> Model for ReadyPrices<'a> {
    ghost use Rattle.choice_prices.specs.Pricing.{Pricing, pricing_of};

    ghost Value = { Pricing };

    ghost use Rattle.choice_prices.specs.Ready.{IsPrepared, prices_in};

    ghost view = { λ r. pricing_of r.prepared.task.now (prices_in r.prepared) };

    ghost invariant = { λ r. IsPrepared r.prepared };
}

impl<'a> ReadyPrices<'a> {
    /// The prices of a list, made ready for the task, in a certificate with these cliques. A list that may not stand there
    /// is refused for the first thing that is wrong with it.
    pub fn new(
        task: &'a Task,
        cliques: &'a [PositionSet],
        list: &'a PriceList,
    ) -> Result<ReadyPrices<'a>, PriceFault>
        requires { All (IsClique task.now) cliques.now }
        ensures made { IfOk result (λ ready. ready
            ≡ pricing_of task.now (prices_of task.now.hold cliques.now (listed_prices list.now))) }
        ensures right { IsOk result ↔ ArePriced task.now.hold (length cliques.now) (listed_prices list.now) }
        ensures refused { IfErr result (λ fault.
            price_fault task.now.hold (length cliques.now) (listed_prices list.now) ≡ Some fault) }
    {
        match price_fault(task, cliques.len(), list) {
            Some(fault) => Err(fault),
            None => Ok(ReadyPrices {
                prepared: Prepared::of(task, cliques, list),
            }),
        }
    }

    /// The value of the prices over a choice, in ticks. No regular placement among the choice has a hold index that is
    /// nearer to the end of the prices.
    pub fn value(&self, sets: &[PositionSet]) -> i128
        ensures value { result ≡ value self.now.task (map members sets.now) self.now.prices }
        ensures of_the_task { AreOf self.now.task self.now.prices }
    {
        self.prepared.value(sets)
    }

    /// Whether the value over a choice is beyond all these ticks, so that no regular placement among the choice has its hold
    /// index among them.
    pub fn is_beyond(&self, ticks: Span, sets: &[PositionSet]) -> bool
        ensures value { IsTrue result ↔ (goal (ticks_of ticks) self.now.prices.end
            <ℤ value self.now.task (map members sets.now) self.now.prices) }
        ensures of_the_task { AreOf self.now.task self.now.prices }
    {
        self.prepared.goal(ticks) < self.prepared.value(sets)
    }

    /// The choice without the positions on which the value would pass these ticks. It has a set for each container that
    /// the choice has one for.
    pub fn trimmed(&self, ticks: Span, sets: &[PositionSet]) -> Sets
        ensures value { map members result.items
            ≡ trimmed self.now.task (ticks_of ticks) self.now.prices (map members sets.now) }
        ensures of_the_task { AreOf self.now.task self.now.prices }
    {
        self.prepared.trimmed(ticks, sets)
    }
}
