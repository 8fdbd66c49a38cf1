// Runs of two desks, each at a door in memory.
ghost use Rattle.std.specs.Prelude.{⊤};

use super::*;
use crate::examples::{MORNING, MORNING_ANSWERS, shelf, words};
use crate::execute::made_for;
use crate::objects::Objects;
use crate::program::run;
use base_words::NoMemory;
use keeper::MemoryKeeper;
use load_io::{MemoryDoor, MemoryLink, MemorySink, SureSource};
use placer::Direct;
use std::test::Fail;

/// A flight that there is not is asked for.
const ROW: &str = "\
    GET /flights/XX210-13 HTTP/1.1\r\n\
    Content-Length: 0\r\n\
    \r\n";

/// Its answer.
const NO_FLIGHT: &str = "\
    HTTP/1.1 404 Not Found\r\n\
    Content-Type: application/json\r\n\
    Content-Length: 21\r\n\
    \r\n\
    {\"error\":\"no flight\"}";

/// The port of the desk that the morning comes to.
const LAST: u16 = 7_002;

/// Makes doors in memory. The last one has a link with a morning, and each other one has two that ask for a flight that there is
/// not. Calls are counted from 1, so none has the number 0.
#[derive(Clone, Copy)]
struct Morning {
    /// The call of each other door that fails.
    fail_door: u64,
    /// The read of their first link that fails.
    fail_read: u64,
}

/// A link that asks so. A read of it fails.
fn link(alloc: Global, asked: &str, fail_read: u64) -> Result<MemoryLink, NoMemory> {
    let input = Vec::from_slice(alloc, asked.as_bytes())?;
    let fail_reads = vec![in alloc; fail_read]?;
    MemoryLink::new(alloc, input, 100, 10_000, fail_reads, Vec::new(alloc))
}

impl Objects for Morning {
    type Keeper = MemoryKeeper;

    type Door = MemoryDoor;

    ghost keeps = { λ _ _. ⊤ };

    ghost stands_at = { λ _ _. ⊤ };

    fn keeper_in_file(&self, alloc: Global, _name: &str) -> Result<MemoryKeeper, NoMemory> {
        Ok(MemoryKeeper::new(alloc))
    }

    fn keeper_in_memory(&self, alloc: Global) -> MemoryKeeper {
        MemoryKeeper::new(alloc)
    }

    fn door(&self, alloc: Global, port: u16) -> Result<MemoryDoor, NoMemory> {
        let mut links = Vec::new(alloc);
        if port == LAST {
            links.push(link(alloc, MORNING, 0)?)?;
            return MemoryDoor::new(alloc, links, Vec::new(alloc));
        }
        links.push(link(alloc, ROW, self.fail_read)?)?;
        links.push(link(alloc, ROW, 0)?)?;
        MemoryDoor::new(alloc, links, vec![in alloc; self.fail_door]?)
    }
}

/// What was written to the links of the doors, one after another.
fn written(alloc: Global, doors: &[MemoryDoor]) -> Result<Vec<u8>, NoMemory> {
    let mut all = Vec::new(alloc);
    for door in doors {
        for link in door.back() {
            all.extend_from_slice(link.written())?;
        }
    }
    Ok(all)
}

/// The exit status of two desks over these doors, and what was written to their links.
fn served<Rt: Threads + Wait + Sync>(
    rt: &Rt,
    alloc: Global,
    objects: &Morning,
) -> Result<(u8, Vec<u8>), NoMemory> {
    let words = words(alloc, &["serve", "2", "7001", ":memory:", "a"])?;
    let (keeper, doors) = made_for(alloc, objects, &words)?;
    let mut shelf = shelf(alloc)?;
    let mut input = SureSource::new(Vec::new(alloc));
    let mut out = MemorySink::new(alloc, 100, Vec::new(alloc))?;
    let ran = run(
        rt, alloc, &words, &mut shelf, &mut input, &mut out, keeper, doors, &Direct,
    );
    let text = written(alloc, ran.doors.as_slice())?;
    Ok((ran.status, text))
}

/// Fails where the desks over these doors do not end with this status, or do not write these answers.
fn check<Rt: Threads + Wait + Sync>(
    rt: &Rt,
    alloc: Global,
    objects: &Morning,
    status: u8,
    answers: &[&str],
) -> Result<(), Fail> {
    let (found, text) = served(rt, alloc, objects)?;
    let mut due = Vec::new(alloc);
    for answer in answers {
        due.extend_from_slice(answer.as_bytes())?;
    }
    if found == status && text == due {
        return Ok(());
    }
    Err(Fail::new(String::from_utf8(text)?.as_str()))
}

#[test]
fn each_door_is_served_by_its_desk(rt: HostRuntime) -> Result<(), Fail> {
    let morning = Morning {
        fail_door: 0,
        fail_read: 0,
    };
    let answers = [NO_FLIGHT, NO_FLIGHT, MORNING_ANSWERS];
    check(&rt, rt.alloc(), &morning, 0, &answers)
}

#[test]
fn a_link_that_fails_ends_alone(rt: HostRuntime) -> Result<(), Fail> {
    let morning = Morning {
        fail_door: 0,
        fail_read: 1,
    };
    check(&rt, rt.alloc(), &morning, 0, &[NO_FLIGHT, MORNING_ANSWERS])
}

#[test]
fn a_door_that_fails_ends_with_11_and_stops_no_other(rt: HostRuntime) -> Result<(), Fail> {
    let morning = Morning {
        fail_door: 1,
        fail_read: 0,
    };
    check(&rt, rt.alloc(), &morning, 11, &[MORNING_ANSWERS])
}
