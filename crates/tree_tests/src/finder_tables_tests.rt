// What is looked up of a small load, against values by hand.
use crate::pass;
use crate::small_load::{four, load, pair};
use case_rows::Subject;
use finder_tables::{
    End, Path, Stowage, TickSpan, cliques_of, each_of, exchange, has, index_of, load_of, number_at,
    one, put, rising, set_at, sound_index, used_by,
};
use std::alloc::{AllocError, Global};
use std::test::Fail;

#[test]
fn numbers_of_a_set_come_in_rising_order(rt: HostRuntime) -> Result<(), Fail> {
    let mut numbers = Vec::new(rt.alloc());
    for number in each_of(pair(63, 5).union(one(0))) {
        numbers.push(number)?;
    }
    assert_eq!(rt; numbers.as_slice(), [0, 5, 63].as_slice());
    assert!(rt; one(64).is_empty() && !has(four(), 64) && has(four(), 3) && !has(four(), 4));
    Ok(())
}

/// The path of a case: a digit for each position.
fn path_of(case: &str) -> Path {
    let mut path = Path::new();
    for digit in case.as_bytes() {
        let _ = path.try_push(*digit & 15);
    }
    path
}

/// The index of a path, what it takes of the limit, told in both ways, and its index if it is sound.
struct Paths;

impl Subject for Paths {
    fn said(&self, alloc: Global, case: &str) -> Result<String, Fail> {
        let load = load(&[1000, 800]);
        let path = path_of(case);
        let limit = load.limits.as_slice().first().ok_or("a limit")?;
        let numbers = (
            index_of(&load, path.as_slice()),
            load_of(&load, limit, path.as_slice()),
            Stowage::of(&load, path.as_slice()).load_of(limit),
        );
        Ok(format!(in alloc; "{numbers:?} {:?}", sound_index(&load, path.as_slice()))?)
    }
}

#[test]
fn a_path_comes_to_its_index_and_loads_and_is_sound_where_each_rule_holds(rt: HostRuntime) {
    let rows = "(-119993, 200, 200) Some(-119993)|03
(120007, -200, -200) Some(120007)|30
(-879993, 1800, 1800) None|10
(600007, -1000, -1000) None|39
(-919993, 1800, 1800) None|01
(-79993, 200, 200) None|12
(1080007, -1800, -1800) None|33
(-599993, 1000, 1000) None|04";
    pass(&rt, rt.alloc(), &Paths, rows);
}

#[test]
fn a_load_has_a_mean_mass_and_a_path_its_positions(rt: HostRuntime) {
    assert!(rt; used_by(&[3, 0]) == pair(0, 3));
    assert_eq!(rt;
        (load(&[1000, 800]).mean_mass(), load(&[]).mean_mass()),
        (900, 1)
    );
}

#[test]
fn twins_are_put_in_rising_order(rt: HostRuntime) -> Result<(), Fail> {
    let mut load = load(&[900, 900, 900, 800]);
    for container in load.containers.as_mut_slice() {
        if container.mass == 900 {
            container.class = 0;
        }
    }
    let path = Path::try_from([3, 1, 2, 0].as_slice())?;
    assert_eq!(rt; rising(&load, &path).as_slice(), [1, 2, 3, 0].as_slice());
    Ok(())
}

/// A path after changes behind its end, and after changes within; and its numbers at 1 and at 2.
fn changed(alloc: Global) -> Result<String, AllocError> {
    let mut path = path_of("31");
    put(&mut path, 2, 9);
    exchange(&mut path, 0, 2);
    let before = format!(in alloc; "{:?}", path.as_slice())?;
    put(&mut path, 1, 9);
    exchange(&mut path, 0, 1);
    let numbers = (number_at(&path, 1), number_at(&path, 2));
    format!(in alloc; "{before} {:?} {numbers:?}", path.as_slice())
}

#[test]
fn paths_change_only_within(rt: HostRuntime) -> Result<(), Fail> {
    assert_eq!(rt; changed(rt.alloc())?.as_str(), "[3, 1] [9, 3] (3, 0)");
    assert!(rt; set_at(&[four()], 0) == four() && set_at(&[four()], 1).is_empty());
    Ok(())
}

/// The ends of three spans of ticks, and the goals of the first.
fn ends_text(alloc: Global) -> Result<String, AllocError> {
    let load = load(&[1000, 800]);
    let within = load.ticks_within(5);
    let nearer = load.ticks_nearer(5);
    let window = load.ticks_within(i64::MAX);
    let goals = (within.goal(End::Low), within.goal(End::High));
    let ends = [
        within.low,
        within.high,
        nearer.low,
        nearer.high,
        window.low,
        window.high,
    ];
    format!(in alloc; "{ends:?} {goals:?}")
}

#[test]
fn ticks_are_counted_from_both_ends(rt: HostRuntime) -> Result<(), Fail> {
    assert_eq!(rt;
        ends_text(rt.alloc())?.as_str(),
        "[-15, 25, -14, 24, -1000000, 1000000] (25, 15)"
    );
    assert!(rt; load(&[1000, 800]).ticks_nearer(0).is_empty());
    let ticks = TickSpan { low: 2, high: 4 };
    for (index, distance) in [(0, 2), (2, 0), (4, 0), (7, 3)] {
        assert_eq!(rt; ticks.distance_to(index), distance, "at {index}");
    }
    Ok(())
}

#[test]
fn cliques_hold_each_pair_that_excludes(rt: HostRuntime) -> Result<(), Fail> {
    let mut load = load(&[1000, 800]);
    let taken = [
        pair(0, 1).union(one(2)),
        pair(0, 1).union(one(2)),
        four(),
        pair(2, 3),
    ];
    for (place, taken) in load.places.as_mut_slice().iter_mut().zip(taken) {
        place.taken = taken;
    }
    let cliques = cliques_of(&load);
    assert_eq!(rt; cliques.len(), 2);
    assert!(rt; cliques[0] == pair(0, 1).union(one(2)) && cliques[1] == pair(2, 3));
    Ok(())
}
