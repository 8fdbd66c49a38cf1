//! The statements that keep rows in a database.

ghost use Rattle.std.specs.Prelude.{◌≡◌, ◌≢◌, ◌↔◌, [], ◌∷◌, ◌++◌, map, Err, IfOk, OnOk, IsTrue};
ghost use Rattle.sqlite.specs.Held.{state};
ghost use Rattle.sqlite.specs.State.{Survives, CommitsBy};
ghost use Rattle.keeper.specs.Tables.{AreInKeyOrder, IsBefore};
ghost use Rattle.sqlite_keeper.specs.Table.{create_text, upsert_text, stored, columns, Makes, ShowAll, ComesLast};

use crate::fault::{CommitFault, fault_of};
use keeper::{Bytes, KeepFault, KeptRow};
use sqlite::{Alter, Connection, Row, params};
use std::alloc::Global;
use std::str;

const CREATE: &str =
    "CREATE TABLE IF NOT EXISTS flight (key TEXT PRIMARY KEY NOT NULL, bytes BLOB NOT NULL) STRICT";

const UPSERT: &str =
    "INSERT INTO flight (key, bytes) VALUES (?1, ?2) ON CONFLICT (key) DO UPDATE SET bytes = excluded.bytes";

const SELECT: &str = "SELECT key, bytes FROM flight ORDER BY key";

/// Creates the table of rows if it is not there. A stop leaves what it would have left before, or the database with the
/// table.
pub fn prepare_rows<S: Alter>(_alloc: Global, conn: &mut Connection<S>) -> Result<(), KeepFault>
    ensures made { OnOk result (Makes S.Store create_text [] conn.old conn.new) }
    ensures stopped { Survives (state S.Store conn.old) (state S.Store conn.new) (CommitsBy create_text [] (state S.Store conn.old)) }
{
    match conn.execute(CREATE, &[]) {
        Ok(_) => Ok(()),
        Err(error) => Err(fault_of(error)),
    }
}

/// Adds the row, or replaces the one under its key, in one statement. A stop leaves what it would have left before, or the
/// database with the row. A key that is not UTF-8 is a failure.
pub fn commit_row<S: Alter>(
    _alloc: Global,
    conn: &mut Connection<S>,
    row: &KeptRow,
) -> Result<(), CommitFault>
    ensures made { OnOk result (Makes S.Store upsert_text (stored row.now) conn.old conn.new) }
    ensures stopped { Survives (state S.Store conn.old) (state S.Store conn.new)
        (CommitsBy upsert_text (stored row.now) (state S.Store conn.old)) }
{
    let Ok(key) = str::from_utf8(row.key.as_slice()) else {
        return Err(CommitFault::Other(KeepFault::Failed));
    };
    match conn.execute(UPSERT, params![key, row.bytes.as_slice()]) {
        Ok(_) => Ok(()),
        Err(error) => Err(CommitFault::of(error)),
    }
}

/// All rows, in the order of their keys. Rows whose keys do not rise are a failure.
pub fn load_rows<S: Alter>(
    alloc: Global,
    conn: &mut Connection<S>,
) -> Result<Vec<KeptRow>, KeepFault>
    ensures rising { IfOk result (λ rows. AreInKeyOrder rows.items) }
    ensures all { IfOk result (λ rows. ShowAll S.Store conn.old conn.new rows.items) }
{
    match conn.query_all(SELECT, &[]) {
        Ok(found) => kept_rows(alloc, found.as_slice()),
        Err(error) => Err(fault_of(error)),
    }
}

/// These rows of the table as a keeper has them.
fn kept_rows(alloc: Global, found: &[Row]) -> Result<Vec<KeptRow>, KeepFault>
    ensures rising { IfOk result (λ rows. AreInKeyOrder rows.items) }
    ensures all { IfOk result (λ rows. map columns found.now ≡ map stored rows.items) }
{
    let mut rows = Vec::new(alloc);
    for row in found {
        add_last(&mut rows, kept_row(row)?)?;
    }
    Ok(rows)
}

/// This row of the table as a keeper has it.
fn kept_row(row: &Row) -> Result<KeptRow, KeepFault>
    ensures { IfOk result (λ kept. columns row.now ≡ stored kept) }
{
    let key = row.get::<String>(0).map_err(fault_of)?;
    let bytes = row.get::<Vec<u8>>(1).map_err(fault_of)?;
    Ok(KeptRow {
        key: Bytes::from(key.into_bytes()),
        bytes: Bytes::from(bytes),
    })
}

/// Adds the row behind the others, if its key comes after that of the last one.
fn add_last(rows: &mut Vec<KeptRow>, row: KeptRow) -> Result<(), KeepFault>
    ensures added { OnOk result (rows.new.items ≡ rows.old.items ++ row ∷ []) }
    ensures rising { AreInKeyOrder rows.old.items → OnOk result (AreInKeyOrder rows.new.items) }
    ensures refused { result ≡ Err KeepFault.Failed → ComesLast rows.old.items row → ⊥ }
{
    if !comes_last(rows.as_slice(), &row) {
        return Err(KeepFault::Failed);
    }
    add(rows, row)
}

fn add(rows: &mut Vec<KeptRow>, row: KeptRow) -> Result<(), KeepFault>
    ensures added { OnOk result (rows.new.items ≡ rows.old.items ++ row ∷ []) }
    ensures memory { result ≢ Err KeepFault.Failed }
{
    match rows.push(row) {
        Ok(()) => Ok(()),
        Err(_) => Err(KeepFault::NoMemory),
    }
}

fn comes_last(rows: &[KeptRow], row: &KeptRow) -> bool
    ensures { IsTrue result ↔ ComesLast rows.now row.now }
{
    match rows.last() {
        Some(last) => is_before(last, row),
        None => true,
    }
}

fn is_before(one: &KeptRow, other: &KeptRow) -> bool
    ensures { IsTrue result ↔ IsBefore one.now other.now }
{
    one.key.as_slice().cmp(other.key.as_slice()).is_lt()
}
