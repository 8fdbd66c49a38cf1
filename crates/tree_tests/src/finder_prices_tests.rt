// Prices of a small load, against values by hand.
use crate::small_load::{four, load, pair};
use finder_prices::{Costs, Held, Prices, Raising};
use finder_tables::{End, Limit, Load, one};
use position_set::PositionSet;
use std::alloc::{AllocError, Global};
use std::test::Fail;

// No prices, from an end.
fn free(alloc: Global, load: &Load, end: End) -> Result<Held, Fail> {
    let prices = Prices::free(alloc, load, end)?;
    let costs = prices.costs(load);
    Ok(Held {
        prices,
        costs,
        serial: 0,
    })
}

/// The prices of a limit and of two positions on a small load.
fn charged(load: &Load, limit: &Limit) -> Costs {
    let mut costs = Costs::free(load, End::Low);
    costs.add_limit(limit, 100);
    costs.charge(pair(2, 3), 5);
    costs
}

/// The costs of 1,000 kg on each position; of the positions 1 and 3 the least and the spread; and the least costs of a load.
fn costs_text(alloc: Global, costs: &Costs, load: &Load) -> Result<String, AllocError> {
    let each = [
        costs.cost(1000, 0),
        costs.cost(1000, 1),
        costs.cost(1000, 2),
        costs.cost(1000, 3),
    ];
    let of_pair = (
        costs.least(1000, pair(1, 3)),
        costs.spread(1000, pair(1, 3)),
    );
    let leasts = costs.leasts(load, &[four(), pair(2, 3)]);
    format!(in alloc; "{each:?} {of_pair:?} {leasts}")
}

#[test]
fn costs_are_a_rate_and_a_fee(rt: HostRuntime) -> Result<(), Fail> {
    let load = load(&[1000, 800]);
    let costs = charged(&load, load.limits.as_slice().first().ok_or("a limit")?);
    assert_eq!(rt;
        costs_text(rt.alloc(), &costs, &load)?.as_str(),
        "[-500000, -300000, 300005, 500005] (-300000, 800005) -259995"
    );
    assert!(rt;
        costs.cheap(1000, four(), 200_000) == pair(0, 1)
            && costs.cheap(1000, four(), 199_999) == one(0)
    );
    Ok(())
}

// Without prices the value is the least index of all lists of positions. With 1,000 kg on position 3 it is 1,200,000 more.
#[test]
fn no_prices_count_the_positions_alone(rt: HostRuntime) -> Result<(), Fail> {
    let load = load(&[1000, 800]);
    let sets = [four(), four()];
    let low = free(rt.alloc(), &load, End::Low)?;
    let high = free(rt.alloc(), &load, End::High)?;
    let values = (low.value(&load, &sets), high.value(&load, &sets));
    assert_eq!(rt; values, (-1_079_993, -1_080_007));
    let trimmed = low.trimmed(&load, &sets, load.ticks_within(0));
    let left = [pair(0, 1).union(one(2)), four()];
    let passes = low.passes(&load, &sets, load.window);
    assert!(rt; !passes && trimmed.as_slice() == left.as_slice());
    Ok(())
}

/// The value that prices come to when they are raised from none, and how many were met.
fn raised(
    alloc: Global,
    load: &Load,
    sets: &[PositionSet],
    end: End,
    goal: i64,
) -> Result<(i64, usize), Fail> {
    let from = free(alloc, load, end)?;
    let raising = Raising {
        alloc,
        load,
        sets,
        goal,
        unit: load.mean_mass(),
    };
    let mut met = Vec::new(alloc);
    let held = raising.raise(&from.prices, 10, 1, &mut met)?;
    Ok((held.value(load, sets), met.len()))
}

// Over different positions the least index is that of 1,000 kg on position 0 and 800 kg on 1, and of its mirror image.
#[test]
fn raised_prices_tell_positions_apart(rt: HostRuntime) -> Result<(), Fail> {
    let mut load = load(&[1000, 800]);
    load.limits.clear();
    let sets = [four(), four()];
    for (end, value) in [(End::Low, -919_993), (End::High, -920_007)] {
        assert_eq!(rt; raised(rt.alloc(), &load, &sets, end, 0)?, (value, 1));
    }
    Ok(())
}

// Three containers for two positions: the value passes the goal.
#[test]
fn too_few_positions_pass_any_goal(rt: HostRuntime) -> Result<(), Fail> {
    let load = load(&[1000, 800, 600]);
    let sets = [pair(0, 3), pair(0, 3), pair(0, 3)];
    let (value, _) = raised(rt.alloc(), &load, &sets, End::Low, 1_000_000)?;
    assert!(rt; value > 1_000_000);
    Ok(())
}
