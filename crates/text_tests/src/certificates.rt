// The worked certificate, and edits of it.
use crate::pass;
use case_rows::{Subject, field, with_line};
use certificate::{CertFault, push_certificate, read_certificate, write_certificate};
use hold_limits::Task;
use problem_text::read_task;
use std::alloc::Global;
use std::test::Fail;
use telex::Builder;

/// A task whose hold has the positions 11, 12, 41 and 42.
const TASK: &[u8] = b"TASK 1
position 11 1 0 AKE 1500
position 12 1 0 AKE 1500
position 41 1 0 AKE 1500
position 42 1 0 AKE 1500
base 0.00000
window 0.00000 0.00000
ideal 0.00000 0.00000
END
";

const CERTIFICATE: &str = "CERTIFICATE 1
best 12 41
cut 11
cut 42
expanded 3
END
";

/// The lines of an answer before its certificate.
const ANSWER: &str = "PLAN
place AKE10001XX 12
place AKE10002XX 41
index 49.20000
distance 0.80000
";

fn task(alloc: Global) -> Result<Task, Fail> {
    Ok(read_task(alloc, TASK)?)
}

/// The certificate that a text spells.
struct Spelled;

impl Subject for Spelled {
    fn said(&self, alloc: Global, case: &str) -> Result<String, Fail> {
        let certificate = read_certificate(alloc, &task(alloc)?, case.as_bytes())?;
        Ok(format!(in alloc; "{certificate:?}")?)
    }
}

#[test]
fn the_worked_certificate_is_read(rt: HostRuntime) {
    let row = "Certificate { claim: Best([1, 2]), cuts: Cuts { list: [[0], [3]] }, expanded: 3 }|\
        CERTIFICATE 1~best 12 41~cut 11~cut 42~expanded 3~END~";
    pass(&rt, rt.alloc(), &Spelled, row);
}

/// The text of the certificate that a text spells.
struct Rewritten;

impl Subject for Rewritten {
    fn said(&self, alloc: Global, case: &str) -> Result<String, Fail> {
        let task = task(alloc)?;
        let certificate = read_certificate(alloc, &task, case.as_bytes())?;
        Ok(String::from_utf8(write_certificate(alloc, &task, &certificate)?)?)
    }
}

/// The lines of the answer, and behind them the text of the worked certificate.
fn answer(alloc: Global) -> Result<String, Fail> {
    let task = task(alloc)?;
    let certificate = read_certificate(alloc, &task, CERTIFICATE.as_bytes())?;
    let mut answer = Builder::new(alloc);
    answer.text(ANSWER.as_bytes())?;
    push_certificate(&mut answer, &task, &certificate)?;
    Ok(String::from_utf8(answer.finish())?)
}

#[test]
fn what_was_written_is_read_back(rt: HostRuntime) {
    let rows =
        "CERTIFICATE 1~best 12 41~cut 11~cut 42~expanded 3~END~|CERTIFICATE 1~best 12 41~cut 11~cut 42~expanded 3~END~
CERTIFICATE 1~best~expanded 0~END~|CERTIFICATE 1~best~expanded 0~END~
CERTIFICATE 1~none~expanded 50000~END~|CERTIFICATE 1~none~expanded 50000~END~
CERTIFICATE 1~best 41~cut~expanded 0~END~|CERTIFICATE 1~best 41~cut~expanded 0~END~";
    pass(&rt, rt.alloc(), &Rewritten, rows);
}

#[test]
fn a_certificate_is_read_behind_the_lines_of_an_answer(rt: HostRuntime) -> Result<(), Fail> {
    let answer = answer(rt.alloc())?;
    assert!(rt; answer.as_str().starts_with(ANSWER));
    let read = Rewritten.said(rt.alloc(), answer.as_str())?;
    assert_eq!(rt; read.as_str(), CERTIFICATE);
    Ok(())
}

/// Why the text is refused, if it is.
fn fault_of(alloc: Global, text: &str) -> Result<Option<CertFault>, Fail> {
    Ok(read_certificate(alloc, &task(alloc)?, text.as_bytes()).err())
}

/// Why the certificate is refused with a line in place of that with a number. A case has the number, how often a name follows
/// the line, and the line.
struct Refused;

impl Subject for Refused {
    fn said(&self, alloc: Global, case: &str) -> Result<String, Fail> {
        let number = field(case, 0)?.parse::<usize>()?;
        let mut line = String::from_str(alloc, field(case, 2)?)?;
        for _ in 0..field(case, 1)?.parse::<usize>()? {
            line.push_str(" 42")?;
        }
        let text = with_line(alloc, CERTIFICATE, number, line.as_str())?;
        Ok(format!(in alloc; "{:?}", fault_of(alloc, text.as_str())?)?)
    }
}

#[test]
fn the_first_wrong_line_is_named(rt: HostRuntime) {
    let rows = "Some(NoStart)|1|0|CERTIFICATE 2
Some(NoStart)|1|0|CERTIFICATE 1 
Some(Line(3))|1|0|BUDGET 7~CERTIFICATE 1~worst 11
Some(Line(2))|2|0|best 12 13
Some(Line(2))|2|0|best 12 
Some(Line(2))|2|0|best  12
Some(Line(2))|2|0|bested
Some(Line(2))|2|0|none 12
Some(Line(3))|2|0|none~none
Some(Line(3))|3|0|cut 011
Some(Line(3))|3|0|CUT 11
Some(Line(5))|5|0|expanded 50001
Some(Line(5))|5|0|expanded 03
Some(Line(6))|5|0|expanded 3~expanded 3
Some(Line(6))|6|0|END 
Some(Line(7))|6|0|END~
Some(Line(7))|7|0|END";
    pass(&rt, rt.alloc(), &Refused, rows);
}

#[test]
fn a_line_names_up_to_60_positions(rt: HostRuntime) {
    let rows = "None|2|60|best
Some(Line(2))|2|61|best
None|3|60|cut
Some(Line(3))|3|61|cut";
    pass(&rt, rt.alloc(), &Refused, rows);
}

/// The first length of the certificate that is not refused because its start or its end is missing.
fn first_other_length(alloc: Global) -> Result<Option<usize>, Fail> {
    let task = task(alloc)?;
    let text = CERTIFICATE.as_bytes();
    for length in 0..text.len() {
        let due = if length < 14 {
            CertFault::NoStart
        } else {
            CertFault::NoEnd
        };
        if read_certificate(alloc, &task, &text[..length]).err() != Some(due) {
            return Ok(Some(length));
        }
    }
    Ok(None)
}

#[test]
fn a_text_that_stops_early_has_no_end(rt: HostRuntime) -> Result<(), Fail> {
    assert_eq!(rt; first_other_length(rt.alloc())?, None);
    Ok(())
}
