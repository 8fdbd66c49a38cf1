//! What containers cost by tariffs of positions, and which of their positions are cheap.

ghost use Rattle.std.specs.Prelude.{◌≡◌, ◌≤◌, ◌<◌, ◌-ℤ◌, int_le, unsigned_abs, All, length, map};
ghost use Rattle.std.specs.List.{filter};
ghost use Rattle.base_words.specs.Lists.{int_sum_by};
ghost use Rattle.hold_limits.specs.Faults.{IsLawful};
ghost use Rattle.hold_reach.specs.Reach.{least};
ghost use Rattle.position_set.specs.Sets.{members};
ghost use Rattle.price_trees.specs.Prices.{candidates};
ghost use Rattle.choice_prices.specs.Tariffs.{cost_by, least_by, cheap_by, IsBoundedTariff};

use crate::tariff::Tariff;
use arrayvec::ArrayVec;
use hold_limits::Task;
use mass_units::Kg;
use position_set::PositionSet;

/// The positions that each container may have, in branch order.
pub type Sets = ArrayVec<PositionSet, 60>;

/// What a mass costs on a position.
fn cost_on(tariffs: &[Tariff], mass: Kg, position: u8) -> i128
    requires within { position < length tariffs.now }
    requires light { mass.0 ≤ 20000 }
    requires bounded_tariffs { All IsBoundedTariff tariffs.now }
    ensures value { result ≡ cost_by tariffs.now mass.0 position }
    ensures bounded { unsigned_abs result ≤ 50000000000000000000 }
{
    tariffs[position as usize].cost(mass)
}

/// The least that a mass costs on a position of the set, and 0 where there is none.
fn least_cost(tariffs: &[Tariff], mass: Kg, set: PositionSet) -> i128
    requires all_positions { length tariffs.now ≡ 64 }
    requires light { mass.0 ≤ 20000 }
    requires bounded_tariffs { All IsBoundedTariff tariffs.now }
    ensures value { result ≡ least (map (cost_by tariffs.now mass.0) (members set)) }
    ensures bounded { unsigned_abs result ≤ 50000000000000000000 }
{
    let mut rest = set;
    let Some(first) = rest.take_first() else {
        return 0;
    };
    let mut least = cost_on(tariffs, mass, first);
    while let Some(position) = rest.take_first() {
        least = least.min(cost_on(tariffs, mass, position));
    }
    least
}

/// How many containers the choice has sets for.
fn candidate_count(task: &Task, sets: &[PositionSet]) -> usize
    ensures value { result ≡ length (candidates task.now (map members sets.now)) }
    ensures sets { result ≤ length sets.now }
    ensures items { result ≤ length task.now.items }
    ensures few { result ≤ 60 }
    ensures lawful { IsLawful task.now }
{
    sets.len().min(task.items().len())
}

/// The least costs of all containers.
pub fn least_costs(task: &Task, tariffs: &[Tariff], sets: &[PositionSet]) -> i128
    requires all_positions { length tariffs.now ≡ 64 }
    requires bounded_tariffs { All IsBoundedTariff tariffs.now }
    ensures value { result ≡ int_sum_by (least_by tariffs.now) (candidates task.now (map members sets.now)) }
    ensures bounded { unsigned_abs result ≤ 3000000000000000000000 }
    ensures lawful { IsLawful task.now }
{
    let mut sum = 0;
    for rank in 0..candidate_count(task, sets) {
        sum += least_cost(tariffs, task.at_rank(rank).mass, sets[rank]);
    }
    sum
}

/// The positions of the set on which a mass costs at most so much more than the least.
fn cheap_positions(tariffs: &[Tariff], slack: i128, mass: Kg, set: PositionSet) -> PositionSet
    requires all_positions { length tariffs.now ≡ 64 }
    requires light { mass.0 ≤ 20000 }
    requires bounded_tariffs { All IsBoundedTariff tariffs.now }
    ensures { members result ≡ filter (λ p. int_le (cost_by tariffs.now mass.0 p
        -ℤ least (map (cost_by tariffs.now mass.0) (members set))) slack) (members set) }
{
    let least = least_cost(tariffs, mass, set);
    let mut rest = set;
    let mut cheap = PositionSet::empty();
    while let Some(position) = rest.take_first() {
        let is_cheap = cost_on(tariffs, mass, position) - least <= slack;
        cheap = cheap.with_if(position, is_cheap);
    }
    cheap
}

/// The choice without the positions that cost more than so much over the least of their container.
pub fn cheap_sets(task: &Task, tariffs: &[Tariff], slack: i128, sets: &[PositionSet]) -> Sets
    requires all_positions { length tariffs.now ≡ 64 }
    requires bounded_tariffs { All IsBoundedTariff tariffs.now }
    ensures { map members result.items
        ≡ map (cheap_by tariffs.now slack) (candidates task.now (map members sets.now)) }
{
    let mut cheap = Sets::new();
    for rank in 0..candidate_count(task, sets) {
        let mass = task.at_rank(rank).mass;
        cheap.push(cheap_positions(tariffs, slack, mass, sets[rank]));
    }
    cheap
}
