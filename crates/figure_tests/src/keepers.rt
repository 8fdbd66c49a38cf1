// Keepers in memory.
use crate::pass;
use case_rows::Subject;
use keeper::{Bytes, FailingKeeper, Keeper, KeptRow, MemoryKeeper};
use std::alloc::Global;
use std::str;
use std::test::Fail;

/// The row that is spelled `key=bytes`.
fn row_of(alloc: Global, text: &str) -> Result<KeptRow, Fail> {
    let (key, bytes) = text.split_once('=').unwrap_or((text, ""));
    Ok(KeptRow {
        key: Bytes::from(Vec::from_slice(alloc, key.as_bytes())?),
        bytes: Bytes::from(Vec::from_slice(alloc, bytes.as_bytes())?),
    })
}

/// What a keeper says to each row of a case, and the bytes that it then has.
fn said_by<K: Keeper>(alloc: Global, keeper: &mut K, case: &str) -> Result<String, Fail> {
    let mut said = String::new(alloc);
    for text in case.split(' ') {
        let row = row_of(alloc, text)?;
        let answer = keeper.commit(alloc, &row);
        said.push_str(format!(in alloc; "{answer:?} ")?.as_str())?;
    }
    for row in &keeper.load(alloc)? {
        said.push_str(str::from_utf8(row.bytes.as_slice())?)?;
        said.push(' ')?;
    }
    Ok(said)
}

struct InMemory;

impl Subject for InMemory {
    fn said(&self, alloc: Global, case: &str) -> Result<String, Fail> {
        said_by(alloc, &mut MemoryKeeper::new(alloc), case)
    }
}

#[test]
fn rows_are_loaded_in_the_order_of_their_keys(rt: HostRuntime) {
    let row = "Ok(()) Ok(()) Ok(()) two three |XX2-12=one XX10-12=two XX2-12=three";
    pass(&rt, rt.alloc(), &InMemory, row);
}

/// A keeper whose second commit fails.
struct Failing;

impl Subject for Failing {
    fn said(&self, alloc: Global, case: &str) -> Result<String, Fail> {
        let second = vec![in alloc; 2]?;
        let mut keeper = FailingKeeper::new(alloc, Vec::new(alloc), second);
        said_by(alloc, &mut keeper, case)
    }
}

#[test]
fn a_failing_keeper_counts_its_failures(rt: HostRuntime) {
    let row = "Ok(()) Err(Failed) one |XX2-12=one XX2-12=one";
    pass(&rt, rt.alloc(), &Failing, row);
}
