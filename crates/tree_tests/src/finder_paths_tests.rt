// Paths near others, in a small load.
use crate::small_load::{four, load, pair};
use arrayvec::ArrayVec;
use finder_paths::{mend, reach};
use finder_tables::{Cliques, Container, Load, Path, Place, TickSpan, one, sound_index};
use std::test::Fail;

// 1,000 kg on position 0 and 800 kg on 2 come to this index.
const ONE_INDEX: TickSpan = TickSpan {
    low: -279_993,
    high: -279_993,
};

#[test]
fn a_path_among_the_ticks_is_reached(rt: HostRuntime) -> Result<(), Fail> {
    let load = load(&[1000, 800]);
    let sets = [four(), four()];
    let path = Path::try_from([3, 0].as_slice())?;
    let reached = reach(rt.alloc(), &load, &sets, ONE_INDEX, &path)?;
    let reached = reached.ok_or("a path")?;
    assert_eq!(rt; reached.as_slice(), [0, 2].as_slice());
    let none = TickSpan { low: 1, high: 2 };
    assert!(rt; reach(rt.alloc(), &load, &sets, none, &path)?.is_none());
    Ok(())
}

#[test]
fn a_path_that_breaks_a_rule_is_mended(rt: HostRuntime) -> Result<(), Fail> {
    let load = load(&[1000, 800]);
    let sets = [four(), four()];
    for broken in [[0, 1], [1, 2], [1, 0]] {
        let path = Path::try_from(broken.as_slice())?;
        let mended = mend(&load, &sets, load.window, &path).ok_or("a path")?;
        assert!(rt;
            sound_index(&load, mended.as_slice()).is_some(),
            "at {broken:?}"
        );
    }
    Ok(())
}

// Four containers of one kilogram with two positions each: so much the hold index changes from the first to the second.
fn four_apart(changes: [i64; 4]) -> Load {
    let mut load = load(&[]);
    load.limits = ArrayVec::new();
    load.cliques = Cliques::new();
    load.places = ArrayVec::new();
    for (number, change) in (0u8..4).zip(changes) {
        let first = number.saturating_mul(2);
        let second = first.saturating_add(1);
        let _ = load.containers.try_push(Container {
            mass: 1,
            class: number,
            accepted: pair(first, second),
        });
        for (place, influence) in [(first, 0), (second, change)] {
            let taken = one(place);
            let _ = load.places.try_push(Place { influence, taken });
        }
    }
    load
}

// The changes come to 1 together; no three of them, no two and none alone come to it, or nearer to it than none.
#[test]
fn two_pairs_of_moves_reach_what_fewer_do_not(rt: HostRuntime) -> Result<(), Fail> {
    let load = four_apart([1000, 2000, -700, -2299]);
    let sets = [pair(0, 1), pair(2, 3), pair(4, 5), pair(6, 7)];
    let path = Path::try_from([0, 2, 4, 6].as_slice())?;
    let ticks = TickSpan { low: 8, high: 8 };
    let reached = reach(rt.alloc(), &load, &sets, ticks, &path)?;
    let reached = reached.ok_or("a path")?;
    assert_eq!(rt; reached.as_slice(), [1, 3, 5, 7].as_slice());
    let other = TickSpan { low: 9, high: 9 };
    assert!(rt; reach(rt.alloc(), &load, &sets, other, &path)?.is_none());
    Ok(())
}
