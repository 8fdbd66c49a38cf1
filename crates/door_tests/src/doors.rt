// Two desks, each at a door of its own.
use crate::examples::{joined, link, office};
use base_words::NoMemory;
use desk_serve::{DoorsRun, serve_doors};
use editions::Entry;
use keeper::{FailingKeeper, Keeper};
use load_io::{MemoryDoor, MemoryLink};
use placer::Direct;
use std::alloc::Global;
use std::sync::Wait;
use std::test::Fail;
use std::thread::Threads;
use worked_day::{FULL, MORNING, MORNING_ANSWERS, NO_FLIGHT, OTHER_FLIGHT};

/// What is asked at the first door: the day of a flight, or of a link that cannot be heard, or of one that cannot be answered.
/// Then a second link asks.
#[derive(Clone, Copy)]
enum First {
    Day,
    Unheard,
    Unsent,
}

/// What befalls the office and its doors. Calls are counted from 1, so none has the number 0.
#[derive(Clone, Copy)]
struct Case {
    /// How many entries the office has room for.
    capacity: u32,
    first: First,
    /// The call of the second door that fails.
    fail_door: u64,
    /// The commit that fails.
    fail_commit: u64,
}

/// Nothing fails.
const FINE: Case = Case {
    capacity: 100,
    first: First::Day,
    fail_door: 0,
    fail_commit: 0,
};

/// A link that asks twice, of which a read fails, or a write.
fn broken_link(alloc: Global, fail_read: u64, fail_write: u64) -> Result<MemoryLink, NoMemory> {
    let input = joined(alloc, &[OTHER_FLIGHT, OTHER_FLIGHT])?;
    let fail_reads = vec![in alloc; fail_read]?;
    let fail_writes = vec![in alloc; fail_write]?;
    MemoryLink::new(alloc, input, 100, 1_000, fail_reads, fail_writes)
}

/// A door with these links, of which a call fails.
fn door(
    alloc: Global,
    first: MemoryLink,
    second: MemoryLink,
    fail: u64,
) -> Result<MemoryDoor, NoMemory> {
    let mut links = Vec::with_capacity(alloc, 2)?;
    links.push_reserved(first);
    links.push_reserved(second);
    MemoryDoor::new(alloc, links, vec![in alloc; fail]?)
}

fn first_door(alloc: Global, first: First) -> Result<MemoryDoor, NoMemory> {
    match first {
        First::Day => {
            let day = link(alloc, &[MORNING])?;
            door(alloc, day, link(alloc, &[OTHER_FLIGHT, OTHER_FLIGHT])?, 0)
        }
        First::Unheard => {
            let unheard = broken_link(alloc, 1, 0)?;
            door(alloc, unheard, link(alloc, &[OTHER_FLIGHT])?, 0)
        }
        First::Unsent => {
            let unsent = broken_link(alloc, 0, 1)?;
            door(alloc, unsent, link(alloc, &[OTHER_FLIGHT])?, 0)
        }
    }
}

/// A door with a link that asks twice, and then one that asks nothing.
fn second_door(alloc: Global, fail: u64) -> Result<MemoryDoor, NoMemory> {
    let first = link(alloc, &[OTHER_FLIGHT, OTHER_FLIGHT])?;
    let second = link(alloc, &[])?;
    door(alloc, first, second, fail)
}

/// What an office leaves that served both doors, with room for so many entries.
fn served<Rt: Threads + Wait + Sync, K: Keeper + Send + Drop>(
    rt: &Rt,
    alloc: Global,
    keeper: K,
    capacity: u32,
    first: MemoryDoor,
    second: MemoryDoor,
) -> Result<DoorsRun<K, MemoryDoor>, NoMemory> {
    let (office, keeper) = office(alloc, keeper, capacity)?;
    let mut doors = Vec::with_capacity(alloc, 2)?;
    doors.push_reserved(first);
    doors.push_reserved(second);
    Ok(serve_doors(rt, alloc, office, keeper, doors, &Direct))
}

/// How many entries of the history are those of each of the two desks.
fn counts(history: &[Entry]) -> (usize, usize) {
    let first = history.iter().filter(|entry| entry.desk == 1).count();
    let second = history.iter().filter(|entry| entry.desk == 2).count();
    (first, second)
}

/// What an office leaves, as a text: how it ended, how many entries each desk made, and then for each door what was written to each
/// link that it took back.
fn told(alloc: Global, run: &DoorsRun<FailingKeeper, MemoryDoor>) -> Result<Vec<u8>, NoMemory> {
    let (first, second) = counts(&run.history);
    let ending = format!(in alloc; "{:?} {first} {second}", run.ending)?;
    let mut text = ending.into_bytes();
    for door in &run.doors {
        text.extend_from_slice(b"\ndoor")?;
        for link in door.back() {
            text.push(b'|')?;
            text.extend_from_slice(link.written())?;
        }
    }
    text.extend_from_slice(b"\nend")?;
    Ok(text)
}

/// What the office of a case leaves.
fn run<Rt: Threads + Wait + Sync>(rt: &Rt, alloc: Global, case: Case) -> Result<Vec<u8>, NoMemory> {
    let first = first_door(alloc, case.first)?;
    let second = second_door(alloc, case.fail_door)?;
    let fail_commits = vec![in alloc; case.fail_commit]?;
    let keeper = FailingKeeper::new(alloc, Vec::new(alloc), fail_commits);
    let run = served(rt, alloc, keeper, case.capacity, first, second)?;
    told(alloc, &run)
}

/// Fails where what the office of a case leaves does not begin with these texts.
fn check<Rt: Threads + Wait + Sync>(
    rt: &Rt,
    alloc: Global,
    case: Case,
    due: &[&str],
) -> Result<(), Fail> {
    let text = run(rt, alloc, case)?;
    let due = joined(alloc, due)?;
    if text.starts_with(&due) {
        return Ok(());
    }
    Err(Fail::new(String::from_utf8(text)?.as_str()))
}

#[test]
fn each_door_is_served_to_its_end(rt: HostRuntime) -> Result<(), Fail> {
    let due = [
        "Ok(Closed) 9 2\ndoor|",
        MORNING_ANSWERS,
        "|",
        NO_FLIGHT,
        NO_FLIGHT,
        "\ndoor|",
        NO_FLIGHT,
        NO_FLIGHT,
        "|\nend",
    ];
    check(&rt, rt.alloc(), FINE, &due)
}

#[test]
fn a_door_that_fails_stops_no_other(rt: HostRuntime) -> Result<(), Fail> {
    let rows = [
        (1, "Ok(Failed) 9 0\ndoor|"),
        (2, "Ok(Failed) 9 2\ndoor|"),
        (3, "Ok(Failed) 9 2\ndoor|"),
    ];
    for (fail_door, due) in rows {
        let case = Case { fail_door, ..FINE };
        check(&rt, rt.alloc(), case, &[due, MORNING_ANSWERS, "|"])?;
    }
    Ok(())
}

#[test]
fn a_link_that_fails_ends_alone(rt: HostRuntime) -> Result<(), Fail> {
    let rows = [
        (First::Unheard, "Ok(Closed) 1 2\ndoor||"),
        (First::Unsent, "Ok(Closed) 2 2\ndoor||"),
    ];
    for (first, due) in rows {
        let case = Case { first, ..FINE };
        check(&rt, rt.alloc(), case, &[due, NO_FLIGHT, "\ndoor|"])?;
    }
    Ok(())
}

#[test]
fn an_office_without_room_says_so_at_each_desk(rt: HostRuntime) -> Result<(), Fail> {
    let case = Case {
        capacity: 0,
        ..FINE
    };
    let due = [
        "Ok(Closed) 0 0\ndoor|",
        FULL,
        FULL,
        FULL,
        FULL,
        FULL,
        FULL,
        FULL,
        "|",
        FULL,
        FULL,
        "\ndoor|",
        FULL,
        FULL,
        "|\nend",
    ];
    check(&rt, rt.alloc(), case, &due)
}

#[test]
fn a_failed_commit_is_answered_so(rt: HostRuntime) -> Result<(), Fail> {
    let case = Case {
        fail_commit: 1,
        ..FINE
    };
    let due = "Ok(Closed) 9 2\ndoor|HTTP/1.1 503 Service Unavailable";
    check(&rt, rt.alloc(), case, &[due])
}
