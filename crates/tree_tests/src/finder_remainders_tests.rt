// Positions that no tick allows, in a small load, beside a program that tries all paths.
use crate::small_load::{four, load, pair};
use finder_remainders::{allows, forbidden_class};
use finder_tables::{Load, TickSpan, each_of, index_of, one};
use position_set::PositionSet;
use std::test::Fail;

// Whether a path has its hold index among the ticks with the first container on one of some positions.
fn comes_to_a_tick(load: &Load, ticks: TickSpan, sets: &[PositionSet; 3]) -> bool {
    for first in each_of(sets[0]) {
        for second in each_of(sets[1]) {
            for third in each_of(sets[2]) {
                let index = index_of(load, &[first, second, third]);
                if ticks.distance_to(index) == 0 {
                    return true;
                }
            }
        }
    }
    false
}

// The container of 1,000 kg comes to -1,079,993, -879,993, -79,993 and 120,007, and that of 800 kg adds 0 or 960,000.
#[test]
fn the_container_with_the_least_share_left_gives_a_class(rt: HostRuntime) -> Result<(), Fail> {
    let load = load(&[1000, 800]);
    let sets = [four(), pair(0, 3)];
    let ticks = TickSpan {
        low: 120_000,
        high: 120_010,
    };
    let class = forbidden_class(&load, ticks, &sets).ok_or("a class")?;
    assert!(rt; class.rank == 0 && class.positions == one(0));
    let wide = TickSpan {
        low: -500_000,
        high: 500_000,
    };
    assert!(rt; forbidden_class(&load, wide, &sets).is_none());
    Ok(())
}

// 240 single ticks and the sets of three containers: whatever is a class, no path with it comes to the tick.
#[test]
fn no_path_with_a_class_comes_to_a_tick(rt: HostRuntime) {
    let load = load(&[1000, 800, 650]);
    let mut classes: u32 = 0;
    for step in 0i64..240 {
        let tick = step.saturating_mul(10_000).saturating_sub(1_199_993);
        let ticks = TickSpan {
            low: tick,
            high: tick,
        };
        let mut sets = [four(), pair(0, 3), pair(1, 2)];
        if let Some(class) = forbidden_class(&load, ticks, &sets) {
            classes = classes.saturating_add(1);
            if let Some(set) = sets.get_mut(class.rank) {
                *set = class.positions;
            }
            assert!(rt; !class.positions.is_empty(), "at {tick}");
            assert!(rt; !comes_to_a_tick(&load, ticks, &sets), "at {tick}");
        }
    }
    assert!(rt; classes > 100);
}

// All ticks around an index are tried one by one.
#[test]
fn ticks_that_leave_a_remainder_are_found(rt: HostRuntime) {
    for (divisor, index) in [(7u64, 100i64), (7, -100), (1, 3), (12, 0), (40, 5)] {
        for low in -20i64..20 {
            let ticks = TickSpan {
                low,
                high: low.saturating_add(5),
            };
            let mut found = false;
            for tick in ticks.low..=ticks.high {
                found = found || index.abs_diff(tick).checked_rem(divisor) == Some(0);
            }
            assert!(rt;
                allows(ticks, index, divisor) == found,
                "{divisor} {index} {low}"
            );
        }
    }
}
