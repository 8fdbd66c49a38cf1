// Outputs in memory and the one that never fails, and their failures.
use crate::pass;
use case_rows::{Subject, field};
use load_io::{MemorySink, Sink, SureSink, write_all};
use std::alloc::Global;
use std::str;
use std::test::Fail;

/// The output of a case: its room, and the call that fails.
fn sink_of(alloc: Global, case: &str) -> Result<MemorySink, Fail> {
    let room = field(case, 0)?.parse::<usize>()?;
    let fail = vec![in alloc; field(case, 1)?.parse::<u64>()?]?;
    Ok(MemorySink::new(alloc, room, fail)?)
}

/// What an output says to each piece of a case, with a comma between two of them.
fn told_of<O: Sink>(alloc: Global, out: &mut O, pieces: &str) -> Result<String, Fail> {
    let mut told = String::new(alloc);
    for piece in pieces.split(',') {
        let answer = out.write(piece.as_bytes());
        told.push_str(format!(in alloc; "{answer:?} ")?.as_str())?;
    }
    Ok(told)
}

/// What an output says to pieces, and what it has then. A case has the room, the calls that fail, and the pieces.
struct Pieces;

impl Subject for Pieces {
    fn said(&self, alloc: Global, case: &str) -> Result<String, Fail> {
        let mut out = sink_of(alloc, case)?;
        let mut said = told_of(alloc, &mut out, field(case, 2)?)?;
        said.push_str(str::from_utf8(out.written())?)?;
        Ok(said)
    }
}

#[test]
fn a_memory_sink_takes_what_fits(rt: HostRuntime) {
    let row = "Ok(3) Ok(0) Ok(2) Ok(0) Err(Failed) abcde|5|0|abc,,defg,,h";
    pass(&rt, rt.alloc(), &Pieces, row);
}

#[test]
fn a_memory_sink_fails_at_the_listed_calls(rt: HostRuntime) -> Result<(), Fail> {
    let mut out = MemorySink::new(rt.alloc(), 9, vec![in rt.alloc(); 4, 2]?)?;
    assert_eq!(rt;
        told_of(rt.alloc(), &mut out, "ab,ab,ab,ab,ab")?.as_str(),
        "Ok(2) Err(Failed) Ok(2) Err(Failed) Ok(2) "
    );
    assert_eq!(rt; out.written(), b"ababab".as_slice());
    Ok(())
}

/// Whether a text is written whole, and what is written of it. A case has the room, the call that fails, and the text.
struct Whole;

impl Subject for Whole {
    fn said(&self, alloc: Global, case: &str) -> Result<String, Fail> {
        let mut out = sink_of(alloc, case)?;
        let answer = write_all(&mut out, field(case, 2)?.as_bytes());
        Ok(format!(in alloc; "{answer:?} {}", str::from_utf8(out.written())?)?)
    }
}

#[test]
fn a_text_is_written_whole_or_in_part(rt: HostRuntime) {
    let rows = "Ok(()) 12345|100|9|12345
Ok(()) 12345|5|9|12345
Err(Failed) 123|3|9|12345
Err(Failed) |0|9|12345
Err(Failed) |100|1|12345
Err(Failed) 123|3|2|12345";
    pass(&rt, rt.alloc(), &Whole, rows);
}

#[test]
fn an_empty_text_takes_no_write(rt: HostRuntime) {
    pass(&rt, rt.alloc(), &Whole, "Ok(()) |0|1|");
}

#[test]
fn a_sure_sink_takes_all(rt: HostRuntime) -> Result<(), Fail> {
    let mut out = SureSink::new();
    assert_eq!(rt;
        told_of(rt.alloc(), &mut out, "abc,")?.as_str(),
        "Ok(3) Ok(0) "
    );
    assert_eq!(rt; write_all(&mut out, b"12345"), Ok(()));
    Ok(())
}
