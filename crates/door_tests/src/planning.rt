// Desks at work at the same time: one asks while another one plans, and links wait for one another.
use crate::examples::{joined, link, office};
use crate::flags::{Flag, FlagDoor, FlagLink};
use base_words::NoMemory;
use desk_serve::{DoorsRun, serve_doors};
use editions::{Act, Entry};
use hold_limits::Task;
use keeper::{Keeper, MemoryKeeper};
use placer::{Answer, Direct, Placing};
use std::alloc::Global;
use std::sync::Wait;
use std::test::Fail;
use std::thread::Threads;
use worked_day::{MORNING, MORNING_ANSWERS, NO_FLIGHT, OTHER_FLIGHT, PLAN};

/// The fuel of the flight, at the edition that is planned.
const FUEL: &str = "\
    PUT /flights/XX210-12/fuel/7 HTTP/1.1\r\n\
    Content-Length: 39\r\n\
    \r\n\
    {\"taxi\":200,\"takeoff\":9100,\"trip\":6000}";

/// Its answer.
const FUEL_ANSWER: &str = "\
    HTTP/1.1 200 OK\r\n\
    Content-Type: application/json\r\n\
    Content-Length: 13\r\n\
    \r\n\
    {\"edition\":8}";

/// The answer to a plan whose figures another desk has changed.
const STALE_ANSWER: &str = "\
    HTTP/1.1 409 Conflict\r\n\
    Content-Type: application/json\r\n\
    Content-Length: 28\r\n\
    \r\n\
    {\"error\":\"stale\",\"newest\":8}";

/// The last entries, and the row of the flight, which has no plan.
const STALE_END: &str = "\
    |1 take 7|2 set 7|1 install 7|FLIGHT 2\n\
    leg XX210 12 DAIAB FRA ARN\n\
    edition 8\n\
    stage working\n\
    releases 0\n\
    dry 42000 50.00000 2 4\n\
    fuel 200 9100 6000\n\
    limits 73500 66000\n\
    zone 50 4 2\n\
    zone 70 6 1\n\
    container AKE10001XX 1000\n\
    container AKE10002XX 800\n\
    loose 51 200 8\n\
    END\n";

/// A search that raises a flag when it is called, and waits for another one. Where that does not rise in time, a third one does.
#[derive(Drop)]
struct Held<'a> {
    begun: &'a Flag,
    due: &'a Flag,
    late: &'a Flag,
}

impl Placing for Held<'_> {
    fn place(&self, alloc: Global, task: &Task, budget: u32) -> Result<Answer, NoMemory> {
        self.begun.raise();
        if !self.due.wait() {
            self.late.raise();
        }
        Direct.place(alloc, task, budget)
    }
}

/// What an office leaves that served both doors.
fn served<'a, Rt: Threads + Wait + Sync, P: Placing + Sync>(
    rt: &Rt,
    alloc: Global,
    first: FlagDoor<'a>,
    second: FlagDoor<'a>,
    placing: &P,
) -> Result<DoorsRun<MemoryKeeper, FlagDoor<'a>>, NoMemory> {
    let (office, keeper) = office(alloc, MemoryKeeper::new(alloc), 100)?;
    let mut doors = Vec::with_capacity(alloc, 2)?;
    doors.push_reserved(first);
    doors.push_reserved(second);
    Ok(serve_doors(rt, alloc, office, keeper, doors, placing))
}

/// What an entry asked, and of which edition, as far as the tests have it.
fn words_of(act: &Act) -> (&'static str, u32) {
    match act {
        Act::Take { edition } => ("take", *edition),
        Act::Set { edition, .. } => ("set", *edition),
        Act::Install { edition, .. } => ("install", *edition),
        _ => ("other", 0),
    }
}

/// Adds the last three entries to the text.
fn push_last(text: &mut String, history: &[Entry]) -> Result<(), NoMemory> {
    for entry in &history[history.len().saturating_sub(3)..] {
        let (word, edition) = words_of(&entry.act);
        write!(text, "|{} {word} {edition}", entry.desk)?;
    }
    Ok(())
}

/// What an office leaves, as a text: how it ended, what was written to the link of each door, the last three entries, and the rows.
fn told(alloc: Global, mut run: DoorsRun<MemoryKeeper, FlagDoor<'_>>) -> Result<Vec<u8>, NoMemory> {
    let mut text = format!(in alloc; "{:?}", run.ending)?.into_bytes();
    for door in &run.doors {
        text.push(b'|')?;
        text.extend_from_slice(door.written())?;
    }
    let mut last = String::new(alloc);
    push_last(&mut last, &run.history)?;
    last.push('|')?;
    text.extend_from_slice(last.as_bytes())?;
    for row in &run.keeper.load(alloc).map_err(|_| NoMemory)? {
        text.extend_from_slice(row.bytes.as_slice())?;
    }
    Ok(text)
}

/// What the office leaves where the second desk sets the fuel while the first one plans.
fn run_while_planning<Rt: Threads + Wait + Sync>(
    rt: &Rt,
    alloc: Global,
) -> Result<Vec<u8>, NoMemory> {
    let (now, planning, answered) = (Flag::new(), Flag::new(), Flag::new());
    let (late, other) = (Flag::new(), Flag::new());
    now.raise();
    let first = FlagLink {
        link: link(alloc, &[MORNING, PLAN])?,
        answer: STALE_ANSWER,
        begun: &other,
        due: &now,
        answered: &other,
    };
    let second = FlagLink {
        link: link(alloc, &[FUEL])?,
        answer: FUEL_ANSWER,
        begun: &other,
        due: &now,
        answered: &answered,
    };
    let placing = Held {
        begun: &planning,
        due: &answered,
        late: &late,
    };
    let first = FlagDoor::new(&now, first);
    let second = FlagDoor::new(&planning, second);
    let run = served(rt, alloc, first, second, &placing)?;
    if late.is_up() {
        return Ok(Vec::from_slice(alloc, b"planning waited for the other desk")?);
    }
    told(alloc, run)
}

#[test]
fn planning_waits_for_nobody(rt: HostRuntime) -> Result<(), Fail> {
    let text = run_while_planning(&rt, rt.alloc())?;
    let due = [
        "Ok(Closed)|",
        MORNING_ANSWERS,
        STALE_ANSWER,
        "|",
        FUEL_ANSWER,
        STALE_END,
    ];
    if text == joined(rt.alloc(), &due)? {
        return Ok(());
    }
    Err(Fail::new(String::from_utf8(text)?.as_str()))
}

/// What the office leaves where a link at each door waits for the one at the other.
fn run_of_links_that_wait<Rt: Threads + Wait + Sync>(
    rt: &Rt,
    alloc: Global,
) -> Result<Vec<u8>, NoMemory> {
    let (now, begun, answered, other) = (Flag::new(), Flag::new(), Flag::new(), Flag::new());
    now.raise();
    let first = FlagLink {
        link: link(alloc, &[OTHER_FLIGHT])?,
        answer: NO_FLIGHT,
        begun: &begun,
        due: &answered,
        answered: &other,
    };
    let second = FlagLink {
        link: link(alloc, &[OTHER_FLIGHT])?,
        answer: NO_FLIGHT,
        begun: &other,
        due: &begun,
        answered: &answered,
    };
    let first = FlagDoor::new(&now, first);
    let second = FlagDoor::new(&now, second);
    told(alloc, served(rt, alloc, first, second, &Direct)?)
}

#[test]
fn links_that_wait_for_one_another_are_served(rt: HostRuntime) -> Result<(), Fail> {
    let text = run_of_links_that_wait(&rt, rt.alloc())?;
    let due = [
        "Ok(Closed)|",
        NO_FLIGHT,
        "|",
        NO_FLIGHT,
        "|2 other 0|1 other 0|",
    ];
    if text == joined(rt.alloc(), &due)? {
        return Ok(());
    }
    Err(Fail::new(String::from_utf8(text)?.as_str()))
}
