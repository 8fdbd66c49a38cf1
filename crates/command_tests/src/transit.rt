// Flights in transit.
use crate::runs::ran_on;
use base_words::NoMemory;
use case_rows::{Subject, check, edited};
use load_io::MemoryShelf;
use std::alloc::Global;
use std::io::Eprint;
use std::process::{Abort, ExitCode, Termination};
use std::test::Fail;

/// Four positions for containers, and one for loose loads; two containers.
const TASK: &str = "TASK 1
position 11 1 -600 AKE 1500
position 12 1 -400 AKE 1500
position 41 4 400 AKE 1500
position 42 4 600 AKE 1500
bulk 51 5 900
item AKE10001XX 1000
item AKE10002XX 800
base 50.00000
window -100.00000 100.00000
ideal 50.00000 50.00000
END
";

/// What came in: a container for ARN, and one for FRA.
const CPM: &str = "CPM
XX210/12.DAIAB.Y150
-11/N
-12/AKE20001XX/ARN/900
-41/AKE20002XX/FRA/700
-42/N
-51/N
";

const LDM: &str = "LDM
XX210/12.DAIAB.Y150.2/4
-FRA.0/0/0.T1600.1/900.4/700.PAX/0
";

/// Words of the program, and edits of the task in the file `t`, of the container message in `c`, and of the load message
/// in `l`: the status and what is printed.
struct Transit;

impl Subject for Transit {
    fn said(&self, alloc: Global, case: &str) -> Result<String, Fail> {
        let (words, edits) = case.split_once('|').unwrap_or((case, ""));
        let mut shelf = shelf_with(alloc, edits)?;
        Ok(ran_on(alloc, words, &mut shelf, 1_000)?)
    }
}

/// A shelf with a task in the file `t`, a container message in `c` and a load message in `l`.
fn shelf_of(
    alloc: Global,
    task: String,
    cpm: String,
    ldm: String,
) -> Result<MemoryShelf, NoMemory> {
    let mut files = Vec::new(alloc);
    files.push((String::from_str(alloc, "t")?, task.into_bytes()))?;
    files.push((String::from_str(alloc, "c")?, cpm.into_bytes()))?;
    files.push((String::from_str(alloc, "l")?, ldm.into_bytes()))?;
    Ok(MemoryShelf::new(files, Vec::new(alloc)))
}

fn shelf_with(alloc: Global, edits: &str) -> Result<MemoryShelf, Fail> {
    let task = edited(alloc, TASK, edits)?;
    let cpm = edited(alloc, CPM, edits)?;
    let ldm = edited(alloc, LDM, edits)?;
    Ok(shelf_of(alloc, task, cpm, ldm)?)
}

/// Fails a test where a row of a table is wrong, and prints the row.
fn pass<R: Abort + Eprint>(rt: &R, alloc: Global, rows: &str) {
    let code = check(alloc, &Transit, rows).report(rt);
    assert!(rt; code == ExitCode::SUCCESS);
}

/// The worked flight; a load of its own on a bulk position, which is said to go to the next station, and nothing that is
/// offered; and a flight on which all stays.
const PLACED: &str =
    "0 PLAN~place AKE10001XX 42~place AKE10002XX 11~index 47.60000~distance 2.40000~CERTIFICATE 1~best 42 11~cut 11~expanded 3~END~CPM~XX210/12.DAIAB.Y150~-11/AKE10002XX/ARN/800~-12/AKE20001XX/ARN/900~-41/N~-42/AKE10001XX/ARN/1000~-51/N~|transit,t,c,l,FRA,ARN
0 PLAN~place AKE10001XX 42~place AKE10002XX 11~index 47.60000~distance 2.40000~CERTIFICATE 1~best 42 11~cut 11~expanded 3~END~CPM~XX210/12.DAIAB.Y150~-11/AKE10002XX/ARN/800~-12/AKE20001XX/ARN/900~-41/N~-42/AKE10001XX/ARN/1000~-51/N~|transit,t,c,l,FRA,ARN,50000
0 PLAN~index 49.28000~distance 0.72000~CERTIFICATE 1~best~expanded 0~END~CPM~XX210/12.DAIAB.Y150~-11/N~-12/AKE20001XX/ARN/900~-41/N~-42/N~-51/JFK/320~|transit,t,c,l,FRA,JFK|item AKE10001XX 1000~item AKE10002XX 800~=>loose 51 320~
0 PLAN~index 49.20000~distance 0.80000~CERTIFICATE 1~best~expanded 0~END~CPM~XX210/12.DAIAB.Y150~-11/N~-12/AKE20001XX/ARN/900~-41/AKE20002XX/FRA/700~-42/N~-51/N~|transit,t,c,l,LHR,JFK|item AKE10001XX 1000~item AKE10002XX 800~=>";

#[test]
fn what_is_offered_is_placed_around_what_stays(rt: HostRuntime) {
    pass(&rt, rt.alloc(), PLACED);
}

/// A window that is not met, and two prefixes where three are near. Nothing is behind either answer.
const NOT_PLACED: &str =
    "4 NONE~CERTIFICATE 1~none~expanded 0~END~|transit,t,c,l,FRA,ARN|item AKE10001XX 1000~item AKE10002XX 800~=>|window -100.00000=>window 99.00000
5 BUDGET 2~|transit,t,c,l,FRA,ARN,2";

#[test]
fn nothing_stands_behind_an_answer_without_a_plan(rt: HostRuntime) {
    pass(&rt, rt.alloc(), NOT_PLACED);
}

/// The position of what stays is a bulk position, and so is one that excludes it.
const AROUND: &str =
    "0 TASK 1~position 11 1 -600 AKE 1500~bulk 12 1 -400~position 41 4 400 AKE 1500~position 42 4 600 AKE 1500~bulk 51 5 900~item AKE10001XX 1000~item AKE10002XX 800~loose 12 900~base 50.00000~window -100.00000 100.00000~ideal 50.00000 50.00000~END~|transittask,t,c,l,FRA,ARN
0 TASK 1~bulk 11 1 -600~bulk 12 1 -400~position 41 4 400 AKE 1500~position 42 4 600 AKE 1500~bulk 51 5 900~exclude 41 42~item AKE10001XX 1000~item AKE10002XX 800~loose 12 900~base 50.00000~window -100.00000 100.00000~ideal 50.00000 50.00000~END~|transittask,t,c,l,FRA,ARN|bulk 51 5 900=>bulk 51 5 900~exclude 11 12~exclude 41 42";

#[test]
fn the_task_around_what_stays_is_written(rt: HostRuntime) {
    pass(&rt, rt.alloc(), AROUND);
}

/// Each reason against a flight in transit, and the first of two.
const REFUSED: &str = "3 TRANSIT 1~|transit,t,c,l,FRA,ARN|Y150.2/4=>Y151.2/4
3 TRANSIT 1~|transittask,t,c,l,FRA,ARN|Y150.2/4=>Y151.2/4|T1600.1/900.4/700=>T1500.1/900.4/600
3 TRANSIT 2~|transit,t,c,l,FRA,ARN|T1600.1/900.4/700=>T1500.1/900.4/600
3 TRANSIT 2~|transit,t,c,l,FRA,ARN|T1600.1/900.4/700=>T1500.1/900.4/600|-12/AKE=>-13/AKE
3 TRANSIT 3~|transit,t,c,l,FRA,ARN|-12/AKE=>-13/AKE
3 TRANSIT 4~|transit,t,c,l,FRA,ARN|/900=>/1600|T1600=>T2300
3 TRANSIT 5~|transit,t,c,l,FRA,ARN|bulk 51 5 900=>bulk 51 5 900~exclude 11 12|-11/N=>-11/AKE20003XX/ARN/100|T1600.1/900=>T1700.1/1000
3 TRANSIT 6~|transittask,t,c,l,FRA,ARN|AKE20001XX=>AKE10001XX
3 TRANSIT 7~|transit,t,c,l,FRA,ARN|base 50=>loose 51 320~base 50|-51/N=>-51/ARN/20|T1600.1/900=>T1620.1/920
3 TRANSIT 8~|transit,t,c,l,FRA,ARN|-51/N=>-51/ARN/20001|T1600.1/900=>T21601.1/20901";

#[test]
fn messages_that_do_not_agree_or_cannot_stay_are_refused(rt: HostRuntime) {
    pass(&rt, rt.alloc(), REFUSED);
}

/// Files that are wrong, and the first of two that are.
const WRONG_FILES: &str = "3 INPUT LINE 1~|transit,t,c,l,FRA,ARN|TASK 1=>TASK 3
3 INPUT TASK 2~|transittask,t,c,l,FRA,ARN|item AKE10002XX=>item AKE10001XX|-42/N=>-42
3 CPM LINE 6~|transit,t,c,l,FRA,ARN|-42/N=>-42
3 CPM LINE 1~|transit,t,l,c,FRA,ARN
3 CPM TELEX 3~|transit,t,c,l,FRA,ARN|-51/N~=>-51/N|PAX/0=>PAX/1
3 LDM LINE 3~|transit,t,c,l,FRA,ARN|PAX/0=>PAX/1|AKE20001XX=>AKE10001XX
3 LDM TELEX 1~|transittask,t,c,l,FRA,ARN|PAX/0=>PÄX/0
6 |transit,u,c,l,FRA,ARN|-42/N=>-42
3 INPUT LINE 1~|transit,t,u,l,FRA,ARN|TASK 1=>TASK 3
6 |transit,t,u,l,FRA,ARN|PAX/0=>PAX/1
3 CPM LINE 6~|transit,t,c,u,FRA,ARN|-42/N=>-42
6 |transittask,t,c,u,FRA,ARN";

#[test]
fn each_file_is_judged_before_the_next_one_is_read(rt: HostRuntime) {
    pass(&rt, rt.alloc(), WRONG_FILES);
}

const USAGE: &str = "2 USAGE~|transit,t,c,l,FRA
2 USAGE~|transit,t,c,l,FRa,ARN
2 USAGE~|transit,t,c,l,FRA,ARNX
2 USAGE~|transit,t,c,l,FRA,ARN,0
2 USAGE~|transit,t,c,l,FRA,ARN,50001
2 USAGE~|transit,t,c,l,FRA,ARN,02
2 USAGE~|transit,t,c,l,FRA,ARN,2,3
2 USAGE~|transit,t,-c,l,FRA,ARN
2 USAGE~|transittask,t,c,l,FRA,ARN,2
2 USAGE~|transittasks,t,c,l,FRA,ARN";

#[test]
fn transit_needs_three_files_and_two_stations(rt: HostRuntime) {
    pass(&rt, rt.alloc(), USAGE);
}
