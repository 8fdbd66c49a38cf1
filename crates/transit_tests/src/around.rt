// The task around what stays: its paths, beside a plain program over all of them, and what is refused.
use crate::pass;
use crate::plain::Aboard;
use crate::texts::{STATION, message_with, task_with};
use case_rows::Subject;
use hold_limits::{Task, hold_index_of, is_admissible};
use ldm_cpm::{CpmPlace, read_cpm};
use std::alloc::Global;
use std::test::Fail;
use transit_messages::staying;
use transit_tasks::with_staying;

/// The path of which this is the place among all of two or three containers over five positions, in path order.
fn path_at(alloc: Global, count: usize, place: u8) -> Result<Vec<u8>, Fail> {
    let mut path = Vec::new(alloc);
    if count > 2 {
        path.push(place / 25)?;
    }
    path.push(place / 5 % 5)?;
    path.push(place % 5)?;
    Ok(path)
}

/// Whether the path is admissible for the task around what stays. Fails where the plain program says otherwise of the
/// path together with what stays, or has another hold index.
fn is_admissible_around(
    alloc: Global,
    task: &Task,
    stay: &[CpmPlace<'_>],
    around: &Task,
    path: &[u8],
) -> Result<bool, Fail> {
    if path.len() != around.items().len() {
        return Err(Fail::new("the task has two containers or three"));
    }
    let aboard = Aboard::new(alloc, task, stay, path)?;
    if hold_index_of(around, path).0 != aboard.index(task.hold()) {
        return Err(Fail::new("the hold index is another"));
    }
    let is_found = is_admissible(around, path);
    if is_found == aboard.is_admissible(task) {
        Ok(is_found)
    } else {
        Err(Fail::new("the path is admissible for one of the two alone"))
    }
}

/// How many paths are admissible for the task around what stays.
fn count_around(alloc: Global, task: &Task, stay: &[CpmPlace<'_>]) -> Result<u8, Fail> {
    let around = with_staying(alloc, task, stay)?;
    let count = task.items().len();
    let mut admissible: u8 = 0;
    for place in 0..(if count > 2 { 125 } else { 25 }) {
        let path = path_at(alloc, count, place)?;
        if is_admissible_around(alloc, task, stay, &around, path.as_slice())? {
            admissible = admissible.saturating_add(1);
        }
    }
    Ok(admissible)
}

/// The lines of a container message, and edits of the task: how many paths are admissible around what stays.
struct Paths;

impl Subject for Paths {
    fn said(&self, alloc: Global, case: &str) -> Result<String, Fail> {
        let (lines, edits) = case.split_once('|').unwrap_or((case, ""));
        let task = task_with(alloc, edits)?;
        let message = message_with(alloc, lines)?;
        let cpm = read_cpm(alloc, message.as_bytes())?;
        let stay = staying(alloc, &cpm, STATION)?;
        let count = count_around(alloc, &task, stay.as_slice())?;
        Ok(format!(in alloc; "{count}")?)
    }
}

/// Nothing stays; what is for this station leaves; a container stays, two, and one of no mass or of another kind.
const POSITIONS: &str = "24|-11/N
24|-12/AKE20001XX/FRA/900~-51/FRA/300
6|-12/AKE20001XX/ARN/900
6|-12/AKE20001XX/ARN/0
0|-12/AKE20001XX/ARN/900~-41/AKE20002XX/JFK/700
2|-12/AKE20001XX/ARN/900~-41/AKE20002XX/JFK/700|item AKE10003XX 600~=>
6|-42/PMC20001XX/ARN/2800|42 4 600 AKE 1500=>42 4 600 AKE 1500 PMC 3000";

/// A position that excludes the one on which a container stays, named first or second; two that exclude such a
/// position; and pairs of positions that both stay open.
const EXCLUDED: &str =
    "2|-12/AKE20001XX/ARN/900|item AKE10003XX 600~=>|51 5 900=>51 5 900~exclude 12 41
2|-41/AKE20001XX/ARN/900|item AKE10003XX 600~=>|51 5 900=>51 5 900~exclude 12 41
0|-12/AKE20001XX/ARN/900|item AKE10003XX 600~=>|51 5 900=>51 5 900~exclude 12 41~exclude 42 12
4|-12/AKE20001XX/ARN/900|item AKE10003XX 600~=>|51 5 900=>51 5 900~exclude 11 41
12|-51/ARN/900|51 5 900=>51 5 900~exclude 12 41";

/// Combined and cumulative limits over a container that stays and over loose loads: exact, and a kilogram below.
const LIMITS: &str = "6|-12/AKE20001XX/ARN/900|51 5 900=>51 5 900~combined 1900 11 12
4|-12/AKE20001XX/ARN/900|51 5 900=>51 5 900~combined 1899 11 12
0|-12/AKE20001XX/ARN/900|51 5 900=>51 5 900~combined 899 12 51
4|-12/AKE20001XX/ARN/900|51 5 900=>51 5 900~cumulative forward 12 1700
2|-12/AKE20001XX/ARN/900|51 5 900=>51 5 900~cumulative forward 12 1699
6|-42/AKE20001XX/ARN/900~-51/ARN/320|51 5 900=>51 5 900~cumulative aft 42 1220
0|-42/AKE20001XX/ARN/900~-51/ARN/320|51 5 900=>51 5 900~cumulative aft 42 1219
18|-51/ARN/320|51 5 900=>51 5 900~combined 1120 42 51
4|-51/ARN/320|position 41 4 400 AKE 1500~=>|51 5 900~=>51 5 900~bulk 52 5 950~combined 1200 42 51 52~|base 50=>loose 52 80~base 50";

/// A lateral limit, with a container that stays on a side, and with a loose load. It is on all that is aboard.
const LATERAL: &str =
    "6|-12/AKE20001XX/ARN/900|51 5 900=>51 5 900~side 11 left~side 12 right~side 41 left~side 42 right~lateral 500|TASK 1=>TASK 2
4|-12/AKE20001XX/ARN/900|51 5 900=>51 5 900~side 11 left~side 12 right~side 41 left~side 42 right~lateral 499|TASK 1=>TASK 2
2|-12/AKE20001XX/ARN/900|51 5 900=>51 5 900~side 11 left~side 12 right~side 41 left~side 42 right~lateral 299|TASK 1=>TASK 2
0|-12/AKE20001XX/ARN/900|51 5 900=>51 5 900~side 11 left~side 12 right~side 41 left~side 42 right~lateral 99|TASK 1=>TASK 2
8|-51/ARN/300|51 5 900=>51 5 900~side 11 left~side 12 right~side 41 left~side 42 right~side 51 left~lateral 500|TASK 1=>TASK 2
4|-51/ARN/300|51 5 900=>51 5 900~side 11 left~side 12 right~side 41 left~side 42 right~side 51 left~lateral 100|TASK 1=>TASK 2
0|-51/ARN/300|51 5 900=>51 5 900~side 11 left~side 12 right~side 41 left~side 42 right~side 51 left~lateral 99|TASK 1=>TASK 2
2|-12/AKE20001XX/ARN/900~-51/ARN/320|51 5 900=>51 5 900~side 11 left~side 12 right~side 41 left~side 42 right~side 51 left~lateral 180|TASK 1=>TASK 2
0|-12/AKE20001XX/ARN/900~-51/ARN/320|51 5 900=>51 5 900~side 11 left~side 12 right~side 41 left~side 42 right~side 51 left~lateral 179|TASK 1=>TASK 2";

/// Windows that the moment of what stays decides: exact, and a tick narrower.
const WINDOW: &str = "4|-12/AKE20001XX/ARN/900|-100.00000 100.00000=>-2.00000 100.00000
1|-12/AKE20001XX/ARN/900|-100.00000 100.00000=>-100.00000 -2.80000
0|-12/AKE20001XX/ARN/900|-100.00000 100.00000=>-100.00000 -2.80001
2|-12/AKE20001XX/ARN/900|-100.00000 100.00000=>0.00000 1.60000
0|-12/AKE20001XX/ARN/900|-100.00000 100.00000=>0.00001 1.59999
1|-51/ARN/300|-100.00000 100.00000=>9.50000 100.00000
0|-51/ARN/300|-100.00000 100.00000=>9.50001 100.00000
2|-51/ARN/300|-100.00000 100.00000=>-100.00000 -3.70000";

#[test]
fn what_stays_takes_its_position(rt: HostRuntime) {
    pass(&rt, rt.alloc(), &Paths, POSITIONS);
}

#[test]
fn what_stays_closes_the_positions_that_it_excludes(rt: HostRuntime) {
    pass(&rt, rt.alloc(), &Paths, EXCLUDED);
}

#[test]
fn limits_are_on_what_stays_too(rt: HostRuntime) {
    pass(&rt, rt.alloc(), &Paths, LIMITS);
}

#[test]
fn the_lateral_limit_is_on_all_that_is_aboard(rt: HostRuntime) {
    pass(&rt, rt.alloc(), &Paths, LATERAL);
}

#[test]
fn the_window_is_for_all_that_is_aboard(rt: HostRuntime) {
    pass(&rt, rt.alloc(), &Paths, WINDOW);
}

/// The lines of a container message, and edits of the task: why the offer cannot be placed around what stays.
struct Refusals;

impl Subject for Refusals {
    fn said(&self, alloc: Global, case: &str) -> Result<String, Fail> {
        let (lines, edits) = case.split_once('|').unwrap_or((case, ""));
        let task = task_with(alloc, edits)?;
        let message = message_with(alloc, lines)?;
        let cpm = read_cpm(alloc, message.as_bytes())?;
        let stay = staying(alloc, &cpm, STATION)?;
        let fault = with_staying(alloc, &task, stay.as_slice()).err();
        Ok(format!(in alloc; "{fault:?}")?)
    }
}

/// Each reason once or more, and the first of several. Places with nothing that stays are not counted.
const REFUSALS: &str = "Some(Place(1))|-11/AKE20001XX/ARN/900~-13/AKE20002XX/ARN/900
Some(Place(0))|-51/AKE20001XX/ARN/900
Some(Place(0))|-12/FRA/300~-41/ARN/300
Some(NoFit(0))|-11/N~-12/PMC20001XX/ARN/900
Some(NoFit(1))|-11/AKE20001XX/ARN/1500~-12/AKE20002XX/ARN/1501
Some(Clash(1))|-12/AKE20001XX/ARN/900~-41/AKE20002XX/ARN/900|51 5 900=>51 5 900~exclude 41 12
Some(Clash(1))|-12/AKE20001XX/ARN/900~-41/AKE10001XX/ARN/900|51 5 900=>51 5 900~exclude 12 41
Some(Offered(0))|-12/AKE10003XX/ARN/900
Some(BulkShared(1))|-12/AKE20001XX/ARN/900~-51/ARN/300|base 50=>loose 51 80~base 50
Some(BulkShared(0))|-51/ARN/300|base 50=>loose 51 0~base 50
Some(Task(LooseTooHeavy(0)))|-51/ARN/20001
Some(Task(LooseTooHeavy(1)))|-12/AKE20001XX/ARN/900~-51/ARN/20001
None|-51/ARN/20000
None|-13/N~-51/FRA/20001
Some(NoFit(0))|-12/AKE10001XX/ARN/1501~-13/ARN/300";

#[test]
fn what_cannot_stay_is_refused_at_its_place(rt: HostRuntime) {
    pass(&rt, rt.alloc(), &Refusals, REFUSALS);
}
