// Days of a flight, over files, an input and an output in memory. What is asked behind the morning, and what is answered, is a
// text: a line for each request, with its method and target, its body, the status of its answer, and the answer's body.
use super::*;
use crate::examples::{MORNING, MORNING_ANSWERS, shelf, words};
use base_words::NoMemory;
use keeper::{Bytes, FailingKeeper, KeptRow, MemoryKeeper};
use load_io::{MemorySink, MemorySource};
use placer::Direct;
use std::test::Fail;

/// The plan for the last figures of the morning.
const PLAN: &str = "PLAN
place AKE10001XX 11
place AKE10002XX 42
index 50.45000
distance 0.00000
CERTIFICATE 1
best 11 42
cut 12
cut 41
cut 42
expanded 2
END
";

/// The sheet of the flight.
const SHEET: &str = "LOADSHEET
XX210/12.DAIAB.FRA.ARN
EDNO 7
PAX 130/3
CABIN 10460
CONTAINERS 1800
LOOSE 320
TRAFFIC LOAD 12580
DRY OPERATING WEIGHT 42000
ZERO FUEL WEIGHT 54580 MAX 62500 L
TAKE OFF FUEL 9000
TAKE OFF WEIGHT 63580 MAX 73500
TRIP FUEL 6000
LANDING WEIGHT 57580 MAX 66000
UNDERLOAD 7920
DOI 50.00 LIZFW 51.66 LITOW 50.45 LILAW 51.65
MACZFW 25.79 MACTOW 25.23 MACLAW 25.74
END
";

/// The sheet where the greatest landing mass is 20 kilograms more than the landing mass.
const TIGHT_SHEET: &str = "LOADSHEET
XX210/12.DAIAB.FRA.ARN
EDNO 8
PAX 130/3
CABIN 10460
CONTAINERS 1800
LOOSE 320
TRAFFIC LOAD 12580
DRY OPERATING WEIGHT 42000
ZERO FUEL WEIGHT 54580 MAX 62500
TAKE OFF FUEL 9000
TAKE OFF WEIGHT 63580 MAX 73500
TRIP FUEL 6000
LANDING WEIGHT 57580 MAX 57600 L
UNDERLOAD 20
DOI 50.00 LIZFW 51.66 LITOW 50.45 LILAW 51.65
MACZFW 25.79 MACTOW 25.23 MACLAW 25.74
END
";

/// The row of the flight once it is released.
const ROW: &str = "FLIGHT 2
leg XX210 12 DAIAB FRA ARN
edition 7
stage released
releases 1
dry 42000 50.00000 2 4
fuel 200 9000 6000
limits 73500 66000
zone 50 4 2
zone 70 6 1
container AKE10001XX 1000
container AKE10002XX 800
loose 51 200 8
plan 11 42
END
";

/// The flight is planned and released.
const RELEASED: &str = "
    POST /flights/XX210-12/plan/7||200 OK|plan
    POST /flights/XX210-12/release/7||200 OK|sheet";

/// It is planned and released with a greatest landing mass of 57,600 kilograms.
const TIGHT: &str = r#"
    PUT /flights/XX210-12/limits/7|{"takeoff":73500,"landing":57600}|200 OK|{"edition":8}
    POST /flights/XX210-12/plan/8||200 OK|plan
    POST /flights/XX210-12/release/8||200 OK|tight sheet"#;

/// The text of this name, or else the name itself.
fn named(name: &str) -> &str {
    match name {
        "plan" => PLAN,
        "sheet" => SHEET,
        "tight sheet" => TIGHT_SHEET,
        "row" => ROW,
        _ => name,
    }
}

/// What is asked on a connection, and what is answered.
#[derive(Drop)]
struct Talk {
    asked: Vec<u8>,
    answered: Vec<u8>,
}

impl Talk {
    fn new(alloc: Global) -> Talk {
        Talk {
            asked: Vec::new(alloc),
            answered: Vec::new(alloc),
        }
    }

    /// The flight has its figures.
    fn morning(alloc: Global) -> Result<Talk, NoMemory> {
        Ok(Talk {
            asked: Vec::from_slice(alloc, MORNING.as_bytes())?,
            answered: Vec::from_slice(alloc, MORNING_ANSWERS.as_bytes())?,
        })
    }

    /// Goes on with a request and its answer.
    fn push(
        &mut self,
        alloc: Global,
        request: &str,
        body: &str,
        status: &str,
        answer: &str,
    ) -> Result<(), NoMemory> {
        let length = body.len();
        let asked = format!(in alloc;
            "{request} HTTP/1.1\r\nContent-Length: {length}\r\n\r\n{body}"
        )?;
        let length = answer.len();
        let kind = if answer.starts_with('{') {
            "application/json"
        } else {
            "text/plain"
        };
        let answered = format!(in alloc;
            "HTTP/1.1 {status}\r\nContent-Type: {kind}\r\nContent-Length: {length}\r\n\r\n{answer}"
        )?;
        self.asked.extend_from_slice(asked.as_bytes())?;
        self.answered.extend_from_slice(answered.as_bytes())?;
        Ok(())
    }

    /// Goes on with the requests of these lines.
    fn push_lines(&mut self, alloc: Global, lines: &str) -> Result<(), NoMemory> {
        for line in lines.trim().split('\n') {
            let mut columns = line.trim_start().split('|');
            let request = columns.next().unwrap_or("");
            let body = columns.next().unwrap_or("");
            let status = columns.next().unwrap_or("");
            let answer = columns.next().unwrap_or("");
            self.push(alloc, request, body, status, named(answer))?;
        }
        Ok(())
    }

    /// The morning, and then the requests of these texts of lines.
    fn of(alloc: Global, texts: &[&str]) -> Result<Talk, NoMemory> {
        let mut talk = Talk::morning(alloc)?;
        for lines in texts {
            talk.push_lines(alloc, lines)?;
        }
        Ok(talk)
    }
}

/// A run of a desk, whose read or write of this number fails. They are counted from 1, so none has the number 0. A read gives at
/// most 100 bytes.
fn ran<K: Keeper + Drop>(
    alloc: Global,
    talk: &Talk,
    keeper: K,
    fail_read: u64,
    fail_write: u64,
) -> Result<(u8, Vec<u8>), NoMemory> {
    let words = words(alloc, &["desk", ":memory:", "a"])?;
    let mut shelf = shelf(alloc)?;
    let asked = talk.asked.as_slice().to_vec(alloc)?;
    let mut input = MemorySource::new(asked, 100, vec![in alloc; fail_read]?);
    let mut out = MemorySink::new(alloc, 10_000, vec![in alloc; fail_write]?)?;
    let ran = run_one(
        &(),
        alloc,
        &words,
        &mut shelf,
        &mut input,
        &mut out,
        keeper,
        &Direct,
    );
    Ok((ran.ending, out.written().to_vec(alloc)?))
}

/// Fails where the desk does not end with 0, or answers otherwise.
fn check_with<K: Keeper + Drop>(alloc: Global, talk: &Talk, keeper: K) -> Result<(), Fail> {
    let (status, written) = ran(alloc, talk, keeper, 0, 0)?;
    if status == 0 && written == talk.answered {
        return Ok(());
    }
    Err(Fail::new(String::from_utf8(written)?.as_str()))
}

/// The same for the morning and these lines behind it.
fn check(alloc: Global, texts: &[&str]) -> Result<(), Fail> {
    check_with(alloc, &Talk::of(alloc, texts)?, MemoryKeeper::new(alloc))
}

/// The second release commits nothing: the tenth commit is that of the fuel behind it.
#[test]
fn a_release_is_repeated_until_the_figures_change(rt: HostRuntime) -> Result<(), Fail> {
    let alloc = rt.alloc();
    let again = r#"
        POST /flights/XX210-12/release/7||200 OK|sheet
        PUT /flights/XX210-12/fuel/7|{"taxi":200,"takeoff":9000,"trip":6000}|503 Service Unavailable|{"error":"keeper"}
        PUT /flights/XX210-12/fuel/7|{"taxi":200,"takeoff":9000,"trip":6000}|200 OK|{"edition":8}
        POST /flights/XX210-12/release/8||422 Unprocessable Entity|{"error":"no plan"}"#;
    let keeper = FailingKeeper::new(alloc, Vec::new(alloc), vec![in alloc; 10]?);
    check_with(alloc, &Talk::of(alloc, &[RELEASED, again])?, keeper)
}

#[test]
fn a_late_change_is_within_the_tolerance(rt: HostRuntime) -> Result<(), Fail> {
    let accepted = r#"
        POST /flights/XX210-12/lmc/7|{"bulk":"51","mass":500,"pieces":0}|200 OK|{"edition":8}"#;
    check(rt.alloc(), &[RELEASED, accepted])?;
    let refused = r#"
        POST /flights/XX210-12/lmc/7|{"bulk":"51","mass":501,"pieces":0}|422 Unprocessable Entity|{"error":"lmc","reason":4,"value":501}"#;
    check(rt.alloc(), &[RELEASED, refused])
}

#[test]
fn there_are_ten_late_changes_at_most(rt: HostRuntime) -> Result<(), Fail> {
    let changes = r#"
        POST /flights/XX210-12/lmc/7|{"bulk":"51","mass":1,"pieces":0}|200 OK|{"edition":8}
        POST /flights/XX210-12/lmc/8|{"bulk":"51","mass":1,"pieces":0}|200 OK|{"edition":9}
        POST /flights/XX210-12/lmc/9|{"bulk":"51","mass":1,"pieces":0}|200 OK|{"edition":10}
        POST /flights/XX210-12/lmc/10|{"bulk":"51","mass":1,"pieces":0}|200 OK|{"edition":11}
        POST /flights/XX210-12/lmc/11|{"bulk":"51","mass":1,"pieces":0}|200 OK|{"edition":12}
        POST /flights/XX210-12/lmc/12|{"bulk":"51","mass":1,"pieces":0}|200 OK|{"edition":13}
        POST /flights/XX210-12/lmc/13|{"bulk":"51","mass":1,"pieces":0}|200 OK|{"edition":14}
        POST /flights/XX210-12/lmc/14|{"bulk":"51","mass":1,"pieces":0}|200 OK|{"edition":15}
        POST /flights/XX210-12/lmc/15|{"bulk":"51","mass":1,"pieces":0}|200 OK|{"edition":16}
        POST /flights/XX210-12/lmc/16|{"bulk":"51","mass":1,"pieces":0}|200 OK|{"edition":17}
        POST /flights/XX210-12/lmc/17|{"bulk":"51","mass":1,"pieces":0}|422 Unprocessable Entity|{"error":"lmc","reason":1}"#;
    check(rt.alloc(), &[RELEASED, changes])
}

#[test]
fn the_landing_mass_is_kept(rt: HostRuntime) -> Result<(), Fail> {
    let accepted = r#"
        POST /flights/XX210-12/lmc/8|{"bulk":"51","mass":20,"pieces":0}|200 OK|{"edition":9}"#;
    check(rt.alloc(), &[TIGHT, accepted])?;
    let refused = r#"
        POST /flights/XX210-12/lmc/8|{"bulk":"51","mass":21,"pieces":0}|422 Unprocessable Entity|{"error":"lmc","reason":6,"rules":["LANDING"]}"#;
    check(rt.alloc(), &[TIGHT, refused])?;
    let over = r#"
        PUT /flights/XX210-12/limits/7|{"takeoff":73500,"landing":57579}|200 OK|{"edition":8}
        POST /flights/XX210-12/plan/8||200 OK|plan
        POST /flights/XX210-12/release/8||422 Unprocessable Entity|{"error":"broken","rules":["LANDING"]}"#;
    check(rt.alloc(), &[over])
}

#[test]
fn a_fuel_that_the_table_does_not_have_makes_no_task(rt: HostRuntime) -> Result<(), Fail> {
    let lines = r#"
        PUT /flights/XX210-12/fuel/7|{"taxi":200,"takeoff":20001,"trip":6000}|200 OK|{"edition":8}
        POST /flights/XX210-12/plan/8||422 Unprocessable Entity|{"error":"trim","reason":1,"value":20001}"#;
    check(rt.alloc(), &[lines])
}

#[test]
fn a_kept_flight_has_its_row_and_its_sheet(rt: HostRuntime) -> Result<(), Fail> {
    let alloc = rt.alloc();
    let mut keeper = MemoryKeeper::new(alloc);
    let row = KeptRow {
        key: Bytes::from(Vec::from_slice(alloc, b"XX210-12")?),
        bytes: Bytes::from(Vec::from_slice(alloc, ROW.as_bytes())?),
    };
    assert!(rt; keeper.commit(alloc, &row).is_ok());
    let lines = "
        GET /flights/XX210-12||200 OK|row
        GET /flights/XX210-12/sheet||200 OK|sheet";
    let mut talk = Talk::new(alloc);
    talk.push_lines(alloc, lines)?;
    check_with(alloc, &talk, keeper)
}

/// What a failed call leaves: the answers that are still due behind what was written.
fn unwritten(alloc: Global, talk: &Talk, written: &[u8]) -> Result<Vec<u8>, Fail> {
    match talk.answered.as_slice().strip_prefix(written) {
        Some(rest) => Ok(Vec::from_slice(alloc, rest)?),
        None => Err(Fail::new(str::from_utf8(written).unwrap_or("?"))),
    }
}

/// The answers that are still due where the desk ends with this status. None where no call failed.
fn left_by(
    alloc: Global,
    talk: &Talk,
    fail_read: u64,
    fail_write: u64,
    due: u8,
) -> Result<Option<Vec<u8>>, Fail> {
    let (status, written) = ran(alloc, talk, MemoryKeeper::new(alloc), fail_read, fail_write)?;
    let rest = unwritten(alloc, talk, written.as_slice())?;
    if status == due {
        return Ok(Some(rest));
    }
    if status == 0 && rest.is_empty() {
        return Ok(None);
    }
    Err(Fail::new(format_args!("status {status}")))
}

/// The day is over before the hundredth write, and each write before may fail.
#[test]
fn a_write_that_fails_ends_the_run(rt: HostRuntime) -> Result<(), Fail> {
    let alloc = rt.alloc();
    let talk = Talk::of(alloc, &[RELEASED])?;
    for fail_write in 1..100 {
        match left_by(alloc, &talk, 0, fail_write, 7)? {
            Some(rest) => assert!(rt; !rest.is_empty()),
            None => return Ok(()),
        }
    }
    Err(Fail::new("each write fails"))
}

/// The answers to the requests that were heard whole are written, each whole.
#[test]
fn a_read_that_fails_ends_the_run(rt: HostRuntime) -> Result<(), Fail> {
    let alloc = rt.alloc();
    let talk = Talk::of(alloc, &[RELEASED])?;
    for fail_read in 1..100 {
        match left_by(alloc, &talk, fail_read, 0, 6)? {
            Some(rest) => assert!(rt; rest.is_empty() || rest.starts_with(b"HTTP/1.1 ")),
            None => return Ok(()),
        }
    }
    Err(Fail::new("each read fails"))
}
