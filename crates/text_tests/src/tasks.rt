// A task with every kind of line, and edits of it.
use crate::pass;
use case_rows::{Subject, field, with_line};
use hold_limits::{Hold, Task};
use problem_text::{TextFault, read_task, write_task};
use std::alloc::{AllocError, Global};
use std::str;
use std::test::Fail;

const TASK: &str = "TASK 2
position 11 1 -600 AKE 1500
position 12 1 -400 AKE 1500 PMC 3000
bulk 51 5 900
exclude 12 11
combined 2500 11 12
cumulative aft 12 4500
cumulative forward 11 1200
side 11 left
side 51 right
lateral 900
item AKE10001XX 1000
loose 51 0
base 50.00000
window -100.00000 100.00000
ideal -0.00001 50.00000
END
";

fn task(alloc: Global) -> Result<Task, Fail> {
    Ok(read_task(alloc, TASK.as_bytes())?)
}

/// The name of each position, whether it is a bulk position, and how many kinds of containers it accepts.
fn positions_text(alloc: Global, hold: &Hold) -> Result<String, Fail> {
    let mut text = String::new(alloc);
    for position in hold.positions() {
        let name = str::from_utf8(position.name.bytes())?;
        let kinds = position.fits.as_slice().len();
        let line = format!(in alloc; "{name} {} {kinds}\n", position.bulk)?;
        text.push_str(line.as_str())?;
    }
    Ok(text)
}

/// The limits of a hold.
fn limits_text(alloc: Global, hold: &Hold) -> Result<String, AllocError> {
    format!(in alloc;
        "{:?}\n{:?}\n{:?}\n{:?}",
        hold.excludes(),
        hold.combined(),
        hold.cumulative(),
        hold.lateral()
    )
}

const LIMITS: &str = "[(1, 0)]
[Combined { places: ListOf { list: [0, 1] }, most: Kg(2500) }]
[Cumulative { forward: false, place: 1, most: Kg(4500) }, Cumulative { forward: true, place: 0, most: Kg(1200) }]
Some(Lateral { most: Kg(900), sides: ListOf { list: [(0, false), (2, true)] } })";

#[test]
fn the_hold_is_read(rt: HostRuntime) -> Result<(), Fail> {
    let task = task(rt.alloc())?;
    let positions = positions_text(rt.alloc(), task.hold())?;
    assert_eq!(rt; positions.as_str(), "11 false 1\n12 false 2\n51 true 0\n");
    assert_eq!(rt; limits_text(rt.alloc(), task.hold())?.as_str(), LIMITS);
    Ok(())
}

/// The containers, the loose loads and three indices of a task.
fn offer_text(alloc: Global, task: &Task) -> Result<String, Fail> {
    let mut text = String::new(alloc);
    for item in task.items() {
        text.push_str(str::from_utf8(item.id.bytes())?)?;
        text.push_str(format!(in alloc; " {:?}\n", item.mass)?.as_str())?;
    }
    let indices = (task.base(), task.high(), task.ideal_low());
    text.push_str(format!(in alloc; "{:?}\n{indices:?}", task.loose())?.as_str())?;
    Ok(text)
}

const OFFER: &str = "AKE10001XX Kg(1000)
[Loose { position: 2, mass: Kg(0) }]
(Ticks(5000000), Ticks(10000000), Ticks(-1))";

#[test]
fn the_offer_and_the_indices_are_read(rt: HostRuntime) -> Result<(), Fail> {
    let task = task(rt.alloc())?;
    assert_eq!(rt; offer_text(rt.alloc(), &task)?.as_str(), OFFER);
    Ok(())
}

/// The line so many times, with a line feed between two of them.
fn repeated(alloc: Global, line: &str, times: usize) -> Result<String, Fail> {
    let mut lines = String::from_str(alloc, line)?;
    for _ in 1..times {
        lines.push('\n')?;
        lines.push_str(line)?;
    }
    Ok(lines)
}

/// Why the task is refused with a line in place of that with a number. A case has the number, how often the line stands there,
/// and the line.
struct Refused;

impl Subject for Refused {
    fn said(&self, alloc: Global, case: &str) -> Result<String, Fail> {
        let number = field(case, 0)?.parse::<usize>()?;
        let lines = repeated(alloc, field(case, 2)?, field(case, 1)?.parse::<usize>()?)?;
        let text = with_line(alloc, TASK, number, lines.as_str())?;
        Ok(format!(in alloc; "{:?}", read_task(alloc, text.as_bytes()).err())?)
    }
}

#[test]
fn the_first_fault_is_named(rt: HostRuntime) {
    let rows = "Some(Line(1))|1|1|TASK  2
Some(Line(2))|2|1|item AKE10001XX 1000
Some(Line(4))|4|1|bulk 51 5 900 AKE 1500
Some(Line(5))|5|1|exclude 11 13
Some(Hold(Exclude(0)))|5|1|exclude 11 51
Some(Line(6))|6|1|combined 2500
Some(Line(7))|7|1|loose 51 0
Some(Line(12))|12|1|item AKE10001XX 01000
Some(Task(LooseNotBulk(0)))|13|1|loose 11 0
Some(Task(Range(6)))|16|1|ideal 1.00000 0.00000
Some(Line(14))|14|1|base 50.0
Some(Line(16))|16|1|ideal 1.00000 0.0
Some(Line(18))|18|1| ";
    pass(&rt, rt.alloc(), &Refused, rows);
}

#[test]
fn the_lines_of_a_lateral_limit_have_their_place(rt: HostRuntime) {
    let rows = "Some(Line(9))|1|1|TASK 1
Some(Line(8))|7|1|side 11 left
Some(Line(9))|9|1|side 11 middle
Some(Line(9))|9|1|side 13 left
Some(Hold(Side(1)))|10|1|side 11 right
Some(Line(11))|11|1|item AKE10009XX 1
Some(Line(11))|11|1|lateral 0900
Some(Line(12))|11|1|lateral 900~lateral 900
Some(Line(12))|11|1|lateral 900~side 51 right";
    pass(&rt, rt.alloc(), &Refused, rows);
}

#[test]
fn each_fault_of_a_hold_is_named_with_its_index(rt: HostRuntime) {
    let rows = "Some(Hold(Positions(67)))|4|65|bulk 51 5 900
Some(Hold(SameName(3)))|4|2|bulk 51 5 900
Some(Hold(Influence(2)))|4|1|bulk 51 5 100001
Some(Hold(Fits(1)))|3|1|position 12 1 0 AKE 1 AKE 2
Some(Hold(FitMass(1)))|3|1|position 12 1 0 AKE 20001
Some(Hold(TooMany))|5|257|exclude 12 11
Some(Hold(Exclude(1)))|5|1|exclude 12 11~exclude 11 12
Some(Hold(Combined(1)))|6|1|combined 1 11~combined 2500 12 11";
    pass(&rt, rt.alloc(), &Refused, rows);
}

#[test]
fn each_fault_of_a_task_is_named_with_its_index(rt: HostRuntime) {
    let rows = "Some(Task(TooManyItems))|12|61|item AKE10001XX 1000
Some(Task(DuplicateId(1)))|12|2|item AKE10001XX 1000
Some(Task(ItemTooHeavy(0)))|12|1|item AKE10001XX 20001
Some(Task(LooseTwice(1)))|13|2|loose 51 0
Some(Task(LooseTooHeavy(0)))|13|1|loose 51 20001";
    pass(&rt, rt.alloc(), &Refused, rows);
}

/// The first length of the task's text that is not refused because its end is missing.
fn first_other_length(alloc: Global) -> Option<usize> {
    let text = TASK.as_bytes();
    for length in 0..text.len() {
        if read_task(alloc, &text[..length]).err() != Some(TextFault::NoEnd) {
            return Some(length);
        }
    }
    None
}

#[test]
fn a_text_that_stops_early_has_no_end(rt: HostRuntime) {
    assert_eq!(rt; first_other_length(rt.alloc()), None);
}

/// The text of the task that a text spells.
struct Rewritten;

impl Subject for Rewritten {
    fn said(&self, alloc: Global, case: &str) -> Result<String, Fail> {
        let task = read_task(alloc, case.as_bytes())?;
        Ok(String::from_utf8(write_task(alloc, &task)?)?)
    }
}

#[test]
fn a_task_is_written_back_byte_for_byte(rt: HostRuntime) {
    let rows =
        "TASK 2~position 11 1 -600 AKE 1500~position 12 1 -400 AKE 1500 PMC 3000~bulk 51 5 900~exclude 12 11~combined 2500 11 12~cumulative aft 12 4500~cumulative forward 11 1200~side 11 left~side 51 right~lateral 900~item AKE10001XX 1000~loose 51 0~base 50.00000~window -100.00000 100.00000~ideal -0.00001 50.00000~END~|TASK 2~position 11 1 -600 AKE 1500~position 12 1 -400 AKE 1500 PMC 3000~bulk 51 5 900~exclude 12 11~combined 2500 11 12~cumulative aft 12 4500~cumulative forward 11 1200~side 11 left~side 51 right~lateral 900~item AKE10001XX 1000~loose 51 0~base 50.00000~window -100.00000 100.00000~ideal -0.00001 50.00000~END~
TASK 1~position 11 1 -600 AKE 1500~position 12 1 -400 AKE 1500~position 41 4 400 AKE 1500~position 42 4 600 AKE 1500~item AKE10001XX 1000~item AKE10002XX 800~base 50.00000~window -100.00000 100.00000~ideal 50.00000 50.00000~END~|TASK 1~position 11 1 -600 AKE 1500~position 12 1 -400 AKE 1500~position 41 4 400 AKE 1500~position 42 4 600 AKE 1500~item AKE10001XX 1000~item AKE10002XX 800~base 50.00000~window -100.00000 100.00000~ideal 50.00000 50.00000~END~
TASK 1~position 11 1 -500 AKE 1500~bulk 51 5 800~combined 1500 11 51~item AKE10001XX 1200~loose 51 300~base 50.00000~window 20.00000 -20.00000~ideal 46.40000 46.40000~END~|TASK 1~position 11 1 -500 AKE 1500~bulk 51 5 800~combined 1500 11 51~item AKE10001XX 1200~loose 51 300~base 50.00000~window 20.00000 -20.00000~ideal 46.40000 46.40000~END~";
    pass(&rt, rt.alloc(), &Rewritten, rows);
}
