// Inputs in memory and the one that never fails, and their failures.
use crate::pass;
use case_rows::Subject;
use load_io::{MemorySource, Source, SureSource};
use std::alloc::Global;
use std::str;
use std::test::Fail;

/// What an input answers to reads with so much room, up to 4 bytes, and the buffer after each.
fn told_of<S: Source>(alloc: Global, source: &mut S, rooms: &str) -> Result<String, Fail> {
    let mut buf = *b"....";
    let mut told = String::new(alloc);
    for room in rooms.split(' ') {
        let room = room.parse::<usize>()?;
        let answer = source.read(buf.get_mut(..room).ok_or("room")?);
        let text = str::from_utf8(&buf)?;
        told.push_str(format!(in alloc; "{answer:?} {text} ")?.as_str())?;
    }
    Ok(told)
}

/// What an input of seven bytes answers, of which a read gives at most three, and the second fails.
struct InMemory;

impl Subject for InMemory {
    fn said(&self, alloc: Global, case: &str) -> Result<String, Fail> {
        let input = Vec::from_slice(alloc, b"abcdefg")?;
        let mut source = MemorySource::new(input, 3, vec![in alloc; 2]?);
        told_of(alloc, &mut source, case)
    }
}

#[test]
fn a_memory_source_moves_what_fits(rt: HostRuntime) {
    let row =
        "Ok(3) abc. Err(Failed) abc. Ok(0) abc. Ok(2) dec. Ok(2) fgc. Ok(0) fgc. |4 4 0 2 4 4";
    pass(&rt, rt.alloc(), &InMemory, row);
}

struct Sure;

impl Subject for Sure {
    fn said(&self, alloc: Global, case: &str) -> Result<String, Fail> {
        let mut source = SureSource::new(Vec::from_slice(alloc, b"abcdefg")?);
        told_of(alloc, &mut source, case)
    }
}

#[test]
fn a_sure_source_moves_all(rt: HostRuntime) {
    let row = "Ok(4) abcd Ok(0) abcd Ok(3) efgd Ok(0) efgd |4 0 4 4";
    pass(&rt, rt.alloc(), &Sure, row);
}
