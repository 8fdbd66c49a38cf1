// The statements over disks in memory that stop after a number of calls.
ghost use Rattle.std.specs.Prelude.{IsTrue, IfOk};

use crate::rows::{are, row};
use crate::tables::{commit, load, prepare};
use keeper::KeptRow;
use sqlite::{Alter, Connection, FileStore, Files, Options};
use sqlite_disk::{Crash, Disk, Fuse, Memory};
use std::alloc::Global;
use std::test::Fail;

/// Calls that are never used up.
const NO_STOP: u64 = u64::MAX;

/// More calls than one commit makes.
const MANY_CALLS: u64 = 100;

/// The small caches keep a round short.
fn options() -> Options {
    Options {
        cache_pages: 16,
        spill_pages: 16,
        checkpoint_frames: 1000,
        seed: 1,
    }
}

/// The log and the database file, as bytes that are on the disk.
#[derive(Drop)]
struct Images {
    log: Vec<u8>,
    db: Vec<u8>,
}

/// What is left of a run that committed one row.
#[derive(Drop)]
struct Ran<D: Disk> {
    is_acknowledged: bool,
    is_stopped: bool,
    files: Files<D>,
}

/// A disk that holds these bytes, and stops after so many calls.
fn disk(alloc: Global, bytes: &[u8], calls: u64) -> Result<Fuse<Memory>, Fail>
    ensures { IfOk result (λ disk. IsTrue (⟦<Fuse<Memory> as Disk>⟧.is_usable disk)) }
{
    let mut memory = Memory::new(alloc);
    memory.write_at(0, bytes)?;
    memory.sync()?;
    Ok(Fuse::new(memory, calls))
}

fn disks(alloc: Global, held: &Images, log: u64, db: u64) -> Result<Files<Fuse<Memory>>, Fail>
    ensures { IfOk result (λ files. IsTrue (⟦<Fuse<Memory> as Disk>⟧.is_usable files.log) × IsTrue (⟦<Fuse<Memory> as Disk>⟧.is_usable files.db)) }
{
    Ok(Files {
        log: disk(alloc, &held.log, log)?,
        db: disk(alloc, &held.db, db)?,
    })
}

// The functions over any disk do not carry in their proofs what the disks of these tests are made of.

/// Opens the disks as a keeper opens its file, or gives the files back. It has no clause, so that the proofs of those who open
/// do not carry what a database is then.
fn opened<D: Disk + Drop>(
    alloc: Global,
    files: Files<D>,
) -> Result<Connection<FileStore<D>>, Files<D>>
    requires { IsTrue (D.is_usable files.log) × IsTrue (D.is_usable files.db) }
{
    match Connection::open_files(alloc, files, options()) {
        Ok(conn) => Ok(conn),
        Err((_, left)) => Err(left.into_files()),
    }
}

/// Opens the disks, commits the row, and closes them.
fn commit_over<D: Disk + Drop>(alloc: Global, files: Files<D>, row: &KeptRow) -> Ran<D>
    requires { IsTrue (D.is_usable files.log) × IsTrue (D.is_usable files.db) }
{
    match opened(alloc, files) {
        Ok(conn) => commit_and_close(alloc, conn, row),
        Err(files) => Ran {
            is_acknowledged: false,
            is_stopped: true,
            files,
        },
    }
}

fn commit_and_close<D: Disk + Drop>(
    alloc: Global,
    conn: Connection<FileStore<D>>,
    row: &KeptRow,
) -> Ran<D> {
    match committed(alloc, conn, row) {
        Ok(conn) => closed(conn),
        Err(store) => Ran {
            is_acknowledged: false,
            is_stopped: true,
            files: store.close(),
        },
    }
}

/// The database with the row, or what is left of its store.
fn committed<S: Alter + Drop>(
    alloc: Global,
    mut conn: Connection<S>,
    row: &KeptRow,
) -> Result<Connection<S>, S> {
    if is_committed(alloc, &mut conn, row) {
        Ok(conn)
    } else {
        Err(conn.into_store())
    }
}

/// Whether the row is committed, to a table that is there then.
fn is_committed<S: Alter>(alloc: Global, conn: &mut Connection<S>, row: &KeptRow) -> bool {
    prepare(alloc, conn).is_ok() && commit(alloc, conn, row).is_ok()
}

/// Closes the disks after a commit, unless they stop.
fn closed<D: Disk + Drop>(conn: Connection<FileStore<D>>) -> Ran<D> {
    match conn.close_files() {
        Ok(files) => Ran {
            is_acknowledged: true,
            is_stopped: false,
            files,
        },
        Err((_, store)) => Ran {
            is_acknowledged: true,
            is_stopped: true,
            files: store.close(),
        },
    }
}

/// What a crash of the machine leaves of the disks.
fn after_crash(files: Files<Fuse<Memory>>) -> Files<Fuse<Memory>>
    ensures { IsTrue (⟦<Fuse<Memory> as Disk>⟧.is_usable result.log) × IsTrue (⟦<Fuse<Memory> as Disk>⟧.is_usable result.db) }
{
    let Files { mut log, mut db } = files;
    log.crash();
    db.crash();
    Files { log, db }
}

/// The rows that a database has, which is let go.
fn rows_in<S: Alter + Drop>(alloc: Global, mut conn: Connection<S>) -> Result<Vec<KeptRow>, Fail> {
    Ok(load(alloc, &mut conn)?)
}

/// The rows that the next open finds.
fn rows_on<D: Disk + Drop>(alloc: Global, files: Files<D>) -> Result<Vec<KeptRow>, Fail>
    requires { IsTrue (D.is_usable files.log) × IsTrue (D.is_usable files.db) }
{
    match opened(alloc, files) {
        Ok(conn) => rows_in(alloc, conn),
        Err(_) => Err(Fail::from("the disks are not opened again")),
    }
}

/// The disks with the first row, whose commit was acknowledged.
fn first_images(alloc: Global) -> Result<Images, Fail> {
    let nothing = Images {
        log: Vec::new(alloc),
        db: Vec::new(alloc),
    };
    let files = disks(alloc, &nothing, NO_STOP, NO_STOP)?;
    let ran = commit_over(alloc, files, &row(alloc, b"A", b"first")?);
    if !ran.is_acknowledged || ran.is_stopped {
        return Err(Fail::from("the first row is not committed"));
    }
    Ok(Images {
        log: Vec::from_slice(alloc, ran.files.log.inner().bytes())?,
        db: Vec::from_slice(alloc, ran.files.db.inner().bytes())?,
    })
}

/// Commits the second row over disks that stop after so many calls of the log, or of the database file: whether they
/// stopped. After a crash the first row is there, and the second one if its commit was acknowledged.
fn is_stopped_after(
    alloc: Global,
    first: &Images,
    second: &KeptRow,
    log: u64,
    db: u64,
) -> Result<bool, Fail> {
    let ran = commit_over(alloc, disks(alloc, first, log, db)?, second);
    let (is_acknowledged, is_stopped) = (ran.is_acknowledged, ran.is_stopped);
    let rows = rows_on(alloc, after_crash(ran.files))?;
    let has_both = are(&rows, &[(b"A", b"first"), (b"B", b"second")]);
    let has_first = are(&rows, &[(b"A", b"first")]);
    if has_both || (has_first && !is_acknowledged) {
        Ok(is_stopped)
    } else {
        Err(Fail::from("an acknowledged row is lost"))
    }
}

#[test]
fn a_log_that_stops_loses_nothing(rt: HostRuntime) -> Result<(), Fail> {
    let alloc = rt.alloc();
    let first = first_images(alloc)?;
    let second = row(alloc, b"B", b"second")?;
    for calls in 0..MANY_CALLS {
        if !is_stopped_after(alloc, &first, &second, calls, NO_STOP)? {
            assert!(rt; 0 < calls, "no round is stopped");
            return Ok(());
        }
    }
    Err(Fail::from("each round is stopped"))
}

#[test]
fn a_database_file_that_stops_loses_nothing(rt: HostRuntime) -> Result<(), Fail> {
    let alloc = rt.alloc();
    let first = first_images(alloc)?;
    let second = row(alloc, b"B", b"second")?;
    for calls in 0..MANY_CALLS {
        if !is_stopped_after(alloc, &first, &second, NO_STOP, calls)? {
            assert!(rt; 0 < calls, "no round is stopped");
            return Ok(());
        }
    }
    Err(Fail::from("each round is stopped"))
}
