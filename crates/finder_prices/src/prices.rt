//! Prices as the search keeps them.

use crate::costs::Costs;
use arrayvec::ArrayVec;
use base_words::NoMemory;
use finder_tables::{End, Limit, Load, TickSpan, each_of};
use position_set::PositionSet;
use std::alloc::Global;

/// Prices of all positions, limits and cliques.
#[derive(Clone, Debug, Drop)]
pub struct Prices {
    pub end: End,
    pub positions: [i64; 64],
    pub limits: Vec<i64>,
    pub cliques: Vec<i64>,
}

impl Prices {
    /// Without a price.
    pub fn free(alloc: Global, load: &Load, end: End) -> Result<Prices, NoMemory> {
        Ok(Prices {
            end,
            positions: [0; 64],
            limits: vec![in alloc; 0; load.limits.len()]?,
            cliques: vec![in alloc; 0; load.cliques.len()]?,
        })
    }

    /// The costs by the prices of limits and cliques alone.
    pub fn shared_costs(&self, load: &Load) -> Costs {
        let mut costs = Costs::free(load, self.end);
        add_limits(&mut costs, load.limits.as_slice(), self.limits.as_slice());
        add_cliques(&mut costs, load.cliques.as_slice(), self.cliques.as_slice());
        costs
    }

    /// The costs by all prices.
    pub fn costs(&self, load: &Load) -> Costs {
        let mut costs = self.shared_costs(load);
        costs.charge_each(&self.positions);
        costs
    }

    /// What the limits are worth, and what the positions and cliques on which a container of the choice may stand.
    fn worth(&self, load: &Load, sets: &[PositionSet]) -> i64 {
        let open = union_of(sets);
        positions_worth(&self.positions, open)
            .saturating_add(limits_worth(load.limits.as_slice(), self.limits.as_slice()))
            .saturating_add(cliques_worth(load.cliques.as_slice(), self.cliques.as_slice(), open))
    }
}

fn add_limits(costs: &mut Costs, limits: &[Limit], prices: &[i64]) {
    for (limit, price) in limits.iter().zip(prices) {
        if *price != 0 {
            costs.add_limit(limit, *price);
        }
    }
}

fn add_cliques(costs: &mut Costs, cliques: &[PositionSet], prices: &[i64]) {
    for (clique, price) in cliques.iter().zip(prices) {
        if *price != 0 {
            costs.charge(*clique, *price);
        }
    }
}

/// All positions that some container may have.
fn union_of(sets: &[PositionSet]) -> PositionSet {
    let mut union = PositionSet::empty();
    for set in sets {
        union = union.union(*set);
    }
    union
}

fn sum_of(numbers: &[i64]) -> i64 {
    let mut sum: i64 = 0;
    for number in numbers {
        sum = sum.saturating_add(*number);
    }
    sum
}

fn positions_worth(prices: &[i64; 64], open: PositionSet) -> i64 {
    let mut sum: i64 = 0;
    for number in each_of(open) {
        sum = sum.saturating_add(prices[usize::from(number)]);
    }
    sum
}

fn limits_worth(limits: &[Limit], prices: &[i64]) -> i64 {
    let mut sum: i64 = 0;
    for (limit, price) in limits.iter().zip(prices) {
        if *price != 0 {
            sum = sum.saturating_add(price.saturating_mul(limit.room));
        }
    }
    sum
}

fn cliques_worth(cliques: &[PositionSet], prices: &[i64], open: PositionSet) -> i64 {
    let mut sum: i64 = 0;
    for (clique, price) in cliques.iter().zip(prices) {
        if *price != 0 && clique.meets(open) {
            sum = sum.saturating_add(*price);
        }
    }
    sum
}

/// Prices with the costs by them.
#[derive(Clone, Debug, Drop)]
pub struct Held {
    pub prices: Prices,
    pub costs: Costs,
    /// Which prices of the search these are.
    pub serial: usize,
}

impl Held {
    /// The value over a choice, where its containers cost so much at least, together.
    fn value_by(&self, load: &Load, sets: &[PositionSet], leasts: i64) -> i64 {
        let loose = self.prices.end.counted(load.loose);
        loose
            .saturating_add(leasts)
            .saturating_sub(self.prices.worth(load, sets))
    }

    /// The value over a choice: no sound path among it has a hold index that is nearer to the end.
    pub fn value(&self, load: &Load, sets: &[PositionSet]) -> i64 {
        self.value_by(load, sets, self.costs.leasts(load, sets))
    }

    /// Whether the value over a choice is beyond the ticks.
    pub fn passes(&self, load: &Load, sets: &[PositionSet], ticks: TickSpan) -> bool {
        self.value(load, sets) > ticks.goal(self.prices.end)
    }

    /// The choice without the positions on which the value would be beyond the ticks.
    pub fn trimmed(
        &self,
        load: &Load,
        sets: &[PositionSet],
        ticks: TickSpan,
    ) -> ArrayVec<PositionSet, 60> {
        let leasts = self.costs.each_least(load, sets);
        let value = self.value_by(load, sets, sum_of(leasts.as_slice()));
        let slack = ticks.goal(self.prices.end).saturating_sub(value);
        let mut trimmed = ArrayVec::new();
        let containers = load.containers.as_slice().iter().zip(sets);
        for ((container, set), least) in containers.zip(leasts.as_slice()) {
            let most = least.saturating_add(slack);
            let _ = trimmed.try_push(self.costs.at_most(container.mass, *set, most));
        }
        trimmed
    }
}

/// Prices from both ends.
#[derive(Clone, Debug, Drop)]
pub struct Pair {
    pub low: Held,
    pub high: Held,
}

impl Pair {
    /// Those that count from an end.
    pub fn from_end(&self, end: End) -> &Held {
        match end {
            End::Low => &self.low,
            End::High => &self.high,
        }
    }
}
