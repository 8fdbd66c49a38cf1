// The statements over a database in memory.
use crate::rows::{are, row};
use keeper::{KeepFault, KeptRow};
use sqlite::{Alter, Connection, Error};
use sqlite_keeper::{commit_row, load_rows, prepare_rows};
use std::alloc::Global;
use std::test::Fail;

// These have no clause, so that the proof of a test does not carry the state of each call.
pub fn prepare<S: Alter>(alloc: Global, conn: &mut Connection<S>) -> Result<(), KeepFault> {
    prepare_rows(alloc, conn)
}

pub fn commit<S: Alter>(
    alloc: Global,
    conn: &mut Connection<S>,
    row: &KeptRow,
) -> Result<(), KeepFault> {
    Ok(commit_row(alloc, conn, row)?)
}

pub fn load<S: Alter>(alloc: Global, conn: &mut Connection<S>) -> Result<Vec<KeptRow>, KeepFault> {
    load_rows(alloc, conn)
}

pub fn run<S: Alter>(conn: &mut Connection<S>, sql: &str) -> Result<(), Error> {
    conn.execute(sql, &[])?;
    Ok(())
}

/// Commits a row with these bytes under this key.
fn put<S: Alter>(
    alloc: Global,
    conn: &mut Connection<S>,
    key: &[u8],
    bytes: &[u8],
) -> Result<(), KeepFault> {
    match row(alloc, key, bytes) {
        Ok(row) => commit(alloc, conn, &row),
        Err(_) => Err(KeepFault::NoMemory),
    }
}

/// Whether a load has just these rows, in this order.
fn has<S: Alter>(alloc: Global, conn: &mut Connection<S>, wanted: &[(&[u8], &[u8])]) -> bool {
    match load(alloc, conn) {
        Ok(rows) => are(&rows, wanted),
        Err(_) => false,
    }
}

fn load_fails<S: Alter>(alloc: Global, conn: &mut Connection<S>) -> bool {
    matches!(load(alloc, conn), Err(KeepFault::Failed))
}

/// Commits two rows in the other order of their keys, and then the second one again.
fn commit_three<S: Alter>(alloc: Global, conn: &mut Connection<S>) -> Result<(), KeepFault> {
    prepare(alloc, conn)?;
    put(alloc, conn, b"XX2-12", b"one")?;
    put(alloc, conn, b"XX10-12", b"two")?;
    prepare(alloc, conn)?;
    put(alloc, conn, b"XX2-12", b"")
}

#[test]
fn rows_are_loaded_in_the_order_of_their_keys(rt: HostRuntime) -> Result<(), Fail> {
    let alloc = rt.alloc();
    let mut conn = Connection::open_in_memory(alloc)?;
    let committed = commit_three(alloc, &mut conn);
    let are_loaded = has(alloc, &mut conn, &[(b"XX10-12", b"two"), (b"XX2-12", b"")]);
    assert!(rt; committed.is_ok() && are_loaded);
    Ok(())
}

#[test]
fn a_key_that_is_no_text_is_a_failure(rt: HostRuntime) -> Result<(), Fail> {
    let alloc = rt.alloc();
    let mut conn = Connection::open_in_memory(alloc)?;
    let prepared = prepare(alloc, &mut conn);
    let committed = put(alloc, &mut conn, b"XX\xff", b"one");
    let is_empty = has(alloc, &mut conn, &[]);
    assert!(rt; prepared.is_ok() && committed == Err(KeepFault::Failed) && is_empty);
    Ok(())
}

#[test]
fn without_the_table_every_call_is_a_failure(rt: HostRuntime) -> Result<(), Fail> {
    let alloc = rt.alloc();
    let mut conn = Connection::open_in_memory(alloc)?;
    let fails = load_fails(alloc, &mut conn);
    let committed = put(alloc, &mut conn, b"XX2-12", b"one");
    assert!(rt; fails && committed == Err(KeepFault::Failed));
    Ok(())
}

/// Defines the table as another program might, fills it, and prepares it.
fn fill<S: Alter>(
    alloc: Global,
    conn: &mut Connection<S>,
    definition: &str,
    insert: &str,
) -> Result<(), Fail> {
    run(conn, definition)?;
    run(conn, insert)?;
    prepare(alloc, conn)?;
    Ok(())
}

#[test]
fn a_table_that_others_made_is_read_as_it_is(rt: HostRuntime) -> Result<(), Fail> {
    let alloc = rt.alloc();
    let mut conn = Connection::open_in_memory(alloc)?;
    fill(
        alloc,
        &mut conn,
        "CREATE TABLE flight (key TEXT, bytes BLOB)",
        "INSERT INTO flight VALUES ('B', x''), ('A', x'01')",
    )?;
    let are_loaded = has(alloc, &mut conn, &[(b"A", b"\x01"), (b"B", b"")]);
    assert!(rt; are_loaded);
    Ok(())
}

/// Whether a load fails from a table that another program defined and filled so.
fn fails_over(alloc: Global, definition: &str, insert: &str) -> Result<bool, Fail> {
    let mut conn = Connection::open_in_memory(alloc)?;
    fill(alloc, &mut conn, definition, insert)?;
    Ok(load_fails(alloc, &mut conn))
}

#[test]
fn rows_that_a_keeper_does_not_have_are_a_failure(rt: HostRuntime) -> Result<(), Fail> {
    let alloc = rt.alloc();
    let texts = "CREATE TABLE flight (key TEXT, bytes BLOB)";
    let failing = [
        (
            texts,
            "INSERT INTO flight VALUES ('A', x'01'), ('A', x'02')",
        ),
        (texts, "INSERT INTO flight VALUES ('A', 'text')"),
        (texts, "INSERT INTO flight VALUES (NULL, x'01')"),
        (
            "CREATE TABLE flight (key BLOB, bytes BLOB)",
            "INSERT INTO flight VALUES (x'41', x'01')",
        ),
    ];
    for (definition, insert) in failing {
        let fails = fails_over(alloc, definition, insert)?;
        assert!(rt; fails, "for {insert}");
    }
    Ok(())
}

/// Commits this many rows, the last key first.
fn commit_many<S: Alter>(alloc: Global, conn: &mut Connection<S>, count: u16) -> Result<(), Fail> {
    for n in (0..count).rev() {
        let key = format!(in alloc; "XX{}-12", 1000 + u32::from(n))?;
        put(alloc, conn, key.as_bytes(), key.as_bytes())?;
    }
    Ok(())
}

/// Whether these are the rows so committed, in the order of their keys.
fn are_many(alloc: Global, rows: &[KeptRow], count: u16) -> Result<bool, Fail> {
    if rows.len() != usize::from(count) {
        return Ok(false);
    }
    for (n, row) in (0..count).zip(rows) {
        let key = format!(in alloc; "XX{}-12", 1000 + u32::from(n))?;
        if row.key.as_slice() != key.as_bytes() || row.bytes.as_slice() != key.as_bytes() {
            return Ok(false);
        }
    }
    Ok(true)
}

#[test]
fn three_hundred_rows_are_loaded(rt: HostRuntime) -> Result<(), Fail> {
    let alloc = rt.alloc();
    let mut conn = Connection::open_in_memory(alloc)?;
    prepare(alloc, &mut conn)?;
    commit_many(alloc, &mut conn, 300)?;
    let rows = load(alloc, &mut conn)?;
    assert!(rt; are_many(alloc, &rows, 300)?);
    Ok(())
}
