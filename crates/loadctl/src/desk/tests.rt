// Runs of a desk over files, an input and an output in memory.
use super::*;
use crate::examples::{shelf, words};
use crate::program::run_one;
use keeper::{Bytes, FailingKeeper, KeptRow, MemoryKeeper};
use load_io::{MemorySink, MemorySource};
use placer::Direct;
use std::test::Fail;

/// A flight is opened, and its row is asked for.
const OPENED: &str = "\
    POST /flights HTTP/1.1\r\n\
    Content-Length: 85\r\n\
    \r\n\
    {\"flight\":\"XX210\",\"day\":12,\"registration\":\"DAIAB\",\"origin\":\"FRA\",\"destination\":\"ARN\"}\
    GET /flights/XX210-12/sheet HTTP/1.1\r\n\
    \r\n";

/// The answers.
const ANSWERED: &str = "\
    HTTP/1.1 201 Created\r\n\
    Content-Type: application/json\r\n\
    Content-Length: 30\r\n\
    \r\n\
    {\"edition\":1,\"key\":\"XX210-12\"}\
    HTTP/1.1 422 Unprocessable Entity\r\n\
    Content-Type: application/json\r\n\
    Content-Length: 24\r\n\
    \r\n\
    {\"error\":\"not released\"}";

/// The answer to an input that ends in a head.
const HEAD_ANSWER: &str = "\
    HTTP/1.1 400 Bad Request\r\n\
    Content-Type: application/json\r\n\
    Content-Length: 16\r\n\
    Connection: close\r\n\
    \r\n\
    {\"error\":\"head\"}";

/// The status of a desk with these aircraft, its history's length, and what it wrote in so many bytes, where the first
/// read fails if that is asked.
fn ran<K: Keeper + Drop>(
    alloc: Global,
    files: &[&str],
    asked: &str,
    fails: bool,
    room: u32,
    keeper: K,
) -> Result<(u8, usize, Vec<u8>), NoMemory> {
    let words = words(alloc, files)?;
    let mut shelf = shelf(alloc)?;
    let fail = if fails {
        vec![in alloc; 1]?
    } else {
        Vec::new(alloc)
    };
    let mut input = MemorySource::new(Vec::from_slice(alloc, asked.as_bytes())?, 100, fail);
    let mut out = MemorySink::new(alloc, room as usize, Vec::new(alloc))?;
    let ran = run_one(
        &(),
        alloc,
        &words,
        &mut shelf,
        &mut input,
        &mut out,
        keeper,
        &Direct,
    );
    Ok((ran.ending, ran.history.len(), out.written().to_vec(alloc)?))
}

#[test]
fn a_connection_is_answered(rt: HostRuntime) -> Result<(), Fail> {
    let alloc = rt.alloc();
    let desk = &["desk", ":memory:", "a"];
    let (status, entries, written) = ran(
        alloc,
        desk,
        OPENED,
        false,
        1_000,
        MemoryKeeper::new(alloc),
    )?;
    assert_eq!(rt; status, 0);
    assert_eq!(rt; entries, 2);
    assert_eq!(rt; written.as_slice(), ANSWERED.as_bytes());
    Ok(())
}

#[test]
fn a_connection_ends_with_its_status(rt: HostRuntime) -> Result<(), Fail> {
    let alloc = rt.alloc();
    let desk = &["desk", ":memory:", "a"];
    let (status, _, written) = ran(alloc, desk, "GET", false, 1_000, MemoryKeeper::new(alloc))?;
    assert_eq!(rt; status, 3);
    assert_eq!(rt; written.as_slice(), HEAD_ANSWER.as_bytes());
    let (status, _, written) = ran(alloc, desk, OPENED, true, 1_000, MemoryKeeper::new(alloc))?;
    assert_eq!(rt; status, 6);
    assert_eq!(rt; written.len(), 0);
    let (status, entries, written) = ran(
        alloc,
        desk,
        OPENED,
        false,
        200,
        MemoryKeeper::new(alloc),
    )?;
    assert_eq!(rt; status, 7);
    assert_eq!(rt; entries, 2);
    assert_eq!(rt; written.as_slice(), &ANSWERED.as_bytes()[..200]);
    Ok(())
}

#[test]
fn a_fleet_is_refused_by_its_first_file(rt: HostRuntime) -> Result<(), Fail> {
    let alloc = rt.alloc();
    let rows: [(&[&str], u8, &str); 6] = [
        (&["desk", ":memory:", "b"], 3, "AIRCRAFT 1 FAULT 1\n"),
        (&["desk", ":memory:", "a", "b"], 3, "AIRCRAFT 2 FAULT 1\n"),
        (&["desk", ":memory:", "a", "a"], 3, "AIRCRAFT 2 TWICE\n"),
        (&["desk", ":memory:", "c"], 6, ""),
        (&["desk", "a"], 2, "USAGE\n"),
        (&["desk", "", "a"], 2, "USAGE\n"),
    ];
    for (words, due, printed) in rows {
        let (status, entries, written) = ran(
            alloc,
            words,
            OPENED,
            false,
            1_000,
            MemoryKeeper::new(alloc),
        )?;
        assert_eq!(rt; status, due);
        assert_eq!(rt; entries, 0);
        assert_eq!(rt; written.as_slice(), printed.as_bytes());
    }
    Ok(())
}

#[test]
fn rows_that_cannot_be_loaded_are_a_fault(rt: HostRuntime) -> Result<(), Fail> {
    let alloc = rt.alloc();
    let desk = &["desk", ":memory:", "a"];
    let keeper = FailingKeeper::new(alloc, vec![in alloc; 1]?, Vec::new(alloc));
    let (status, _, written) = ran(alloc, desk, OPENED, false, 1_000, keeper)?;
    assert_eq!(rt; status, 8);
    assert_eq!(rt; written.as_slice(), b"STORE FAULT\n".as_slice());
    Ok(())
}

#[test]
fn a_row_of_no_flight_is_named(rt: HostRuntime) -> Result<(), Fail> {
    let alloc = rt.alloc();
    let mut keeper = MemoryKeeper::new(alloc);
    let row = KeptRow {
        key: Bytes::from(Vec::from_slice(alloc, b"XX210-12")?),
        bytes: Bytes::from(Vec::from_slice(alloc, b"FLIGHT 3\n")?),
    };
    assert!(rt; keeper.commit(alloc, &row).is_ok());
    let (status, _, written) = ran(
        alloc,
        &["desk", ":memory:", "a"],
        OPENED,
        false,
        1_000,
        keeper,
    )?;
    assert_eq!(rt; status, 12);
    assert_eq!(rt; written.as_slice(), b"TABLE XX210-12\n".as_slice());
    Ok(())
}
