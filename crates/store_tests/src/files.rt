// The keeper over files of the system.
use crate::rows::{are, row};
use crate::tables::run;
use keeper::{KeepFault, Keeper};
use sqlite::Connection;
use sqlite_keeper::{SqliteKeeper, StoreRuntime};
use std::alloc::Global;
use std::test::Fail;
use std::{env, fs, process};

/// A path for the file of one test.
fn path_of(rt: &HostRuntime, test: &str) -> Result<String, Fail> {
    let folder = env::temp_dir(rt)?;
    let path = format!(in rt.alloc();
        "{}/store_tests-{}-{test}.db",
        folder.display(),
        process::id(rt.process())
    )?;
    Ok(path)
}

/// Removes the file, and its log if there is one.
fn remove(rt: &HostRuntime, path: &str) -> Result<(), Fail> {
    let log = format!(in rt.alloc(); "{path}-wal")?;
    let _ = fs::remove_file(rt, log.as_str());
    fs::remove_file(rt, path)?;
    Ok(())
}

// What a test does with keepers stands in functions over any runtime, or any keeper. In the test itself a keeper has a
// connection, with all that it is made of, and each line of the proof would carry it.

fn keeper_at<Rt: StoreRuntime + Drop>(
    rt: Rt,
    alloc: Global,
    path: &str,
) -> Result<SqliteKeeper<Rt>, Fail> {
    Ok(SqliteKeeper::new(rt, String::from_str(alloc, path)?))
}

/// Commits these bytes under this key.
fn put<K: Keeper>(alloc: Global, keeper: &mut K, key: &[u8], bytes: &[u8]) -> Result<(), Fail> {
    keeper.commit(alloc, &row(alloc, key, bytes)?)?;
    Ok(())
}

/// Commits rows, and a key that is no text before the last one.
fn commit_rows<K: Keeper>(alloc: Global, keeper: &mut K) -> Result<(), Fail> {
    put(alloc, keeper, b"XX2-12", b"one")?;
    put(alloc, keeper, b"XX10-12", b"FLIGHT 1\n")?;
    let refused = keeper.commit(alloc, &row(alloc, b"XX\xff", b"two")?);
    if refused != Err(KeepFault::Failed) {
        return Err(Fail::from("a key that is no text is committed"));
    }
    put(alloc, keeper, b"XX2-12", b"three")
}

/// Whether a load has just these rows, in this order.
fn has<K: Keeper>(alloc: Global, keeper: &mut K, wanted: &[(&[u8], &[u8])]) -> bool {
    match keeper.load(alloc) {
        Ok(rows) => are(&rows, wanted),
        Err(_) => false,
    }
}

/// Whether a load and a commit are failures.
fn fails<K: Keeper>(alloc: Global, keeper: &mut K) -> Result<bool, Fail> {
    let first = row(alloc, b"XX2-12", b"one")?;
    Ok(
        matches!(keeper.load(alloc), Err(KeepFault::Failed))
            && keeper.commit(alloc, &first) == Err(KeepFault::Failed),
    )
}

/// Whether the first load and the first commit of a keeper at this path are failures.
fn fails_at<Rt: StoreRuntime + Drop>(rt: Rt, alloc: Global, path: &str) -> Result<bool, Fail> {
    fails(alloc, &mut keeper_at(rt, alloc, path)?)
}

/// The rows that are in a store then.
const COMMITTED: &[(&[u8], &[u8])] = &[(b"XX10-12", b"FLIGHT 1\n"), (b"XX2-12", b"three")];

/// The rows that are in a store after both of two keepers.
const OF_BOTH: &[(&[u8], &[u8])] = &[
    (b"XX10-12", b"FLIGHT 1\n"),
    (b"XX2-12", b"four"),
    (b"XX3-12", b"five"),
];

/// Whether the second keeper loads what the first one commits, and both keep what each adds, also when the first is gone.
fn load_the_same<Rt: StoreRuntime + Copy + Drop>(
    rt: Rt,
    alloc: Global,
    path: &str,
) -> Result<bool, Fail> {
    let mut first = keeper_at(rt, alloc, path)?;
    let mut second = keeper_at(rt, alloc, path)?;
    let is_empty = has(alloc, &mut first, &[]) && has(alloc, &mut second, &[]);
    commit_rows(alloc, &mut first)?;
    let are_there = has(alloc, &mut second, COMMITTED);
    put(alloc, &mut second, b"XX2-12", b"four")?;
    put(alloc, &mut first, b"XX3-12", b"five")?;
    drop(first);
    Ok(is_empty && are_there && has(alloc, &mut second, OF_BOTH))
}

/// Whether each of two keepers loads what the other one committed, in turns.
fn take_turns<Rt: StoreRuntime + Copy + Drop>(
    rt: Rt,
    alloc: Global,
    path: &str,
) -> Result<bool, Fail> {
    let mut first = keeper_at(rt, alloc, path)?;
    let mut second = keeper_at(rt, alloc, path)?;
    for turn in 0..10u8 {
        put(alloc, &mut first, b"XX1-12", &[turn])?;
        let is_own = has(alloc, &mut first, &[(b"XX1-12", &[turn])]);
        put(alloc, &mut second, b"XX1-12", &[100 + turn])?;
        let wanted: &[(&[u8], &[u8])] = &[(b"XX1-12", &[100 + turn])];
        if !is_own || !has(alloc, &mut second, wanted) || !has(alloc, &mut first, wanted) {
            return Ok(false);
        }
    }
    Ok(true)
}

/// Writes the bytes of a row as another program would, and copies the log into the file.
fn rewrite(rt: &HostRuntime, path: &str, update: &str) -> Result<(), Fail> {
    let mut conn = Connection::open(rt, path)?;
    let done = run(&mut conn, update);
    conn.close()?;
    Ok(done?)
}

/// The rows that are in a store that another program wrote to.
const REWRITTEN: &[(&[u8], &[u8])] = &[(b"XX3-12", b"three"), (b"XX4-12", b"four")];

/// Whether the keeper at this path loads what another program writes, also where that begins the log anew or removes it.
fn follows<K: Keeper>(rt: &HostRuntime, path: &str, keeper: &mut K) -> Result<bool, Fail> {
    let alloc = rt.alloc();
    put(alloc, keeper, b"XX2-12", b"one")?;
    rewrite(rt, path, "UPDATE flight SET bytes = X'74776F'")?;
    let is_read = has(alloc, keeper, &[(b"XX2-12", b"two")]);
    put(alloc, keeper, b"XX3-12", b"three")?;
    rewrite(rt, path, "DELETE FROM flight WHERE key = 'XX2-12'")?;
    let log = format!(in alloc; "{path}-wal")?;
    fs::remove_file(rt, log.as_str())?;
    put(alloc, keeper, b"XX4-12", b"four")?;
    Ok(is_read && has(alloc, keeper, REWRITTEN))
}

/// Whether a keeper does so, and another one loads the rows too when it is gone.
fn both_follow<Rt: StoreRuntime + Copy + Drop>(
    host: &HostRuntime,
    rt: Rt,
    path: &str,
) -> Result<bool, Fail> {
    let mut keeper = keeper_at(rt, host.alloc(), path)?;
    let is_followed = follows(host, path, &mut keeper)?;
    drop(keeper);
    let mut next = keeper_at(rt, host.alloc(), path)?;
    Ok(is_followed && has(host.alloc(), &mut next, REWRITTEN))
}

/// Whether the keeper at this path misses its file where that is moved to another place, also where a copy stands there, and
/// loads from it again where it is back.
fn misses<K: Keeper>(
    rt: &HostRuntime,
    path: &str,
    other: &str,
    keeper: &mut K,
) -> Result<bool, Fail> {
    let alloc = rt.alloc();
    commit_rows(alloc, keeper)?;
    fs::rename(rt, path, other)?;
    let is_missed = fails(alloc, keeper)? && !fs::exists(rt, path)?;
    fs::copy(rt, other, path)?;
    let is_told_from_a_copy = fails(alloc, keeper)?;
    fs::rename(rt, other, path)?;
    Ok(is_missed && is_told_from_a_copy && has(alloc, keeper, COMMITTED))
}

/// Whether a new keeper does so.
fn new_one_misses<Rt: StoreRuntime + Drop>(
    host: &HostRuntime,
    rt: Rt,
    path: &str,
) -> Result<bool, Fail> {
    let other = path_of(host, "other-place")?;
    let mut keeper = keeper_at(rt, host.alloc(), path)?;
    misses(host, path, other.as_str(), &mut keeper)
}

/// What is asked of the keepers at a path: that they load the same, take turns, follow another program, miss a file that was
/// moved away, or fail.
#[derive(Clone, Copy)]
enum Asked {
    LoadTheSame,
    TakeTurns,
    Follow,
    Miss,
    Fail,
}

/// Whether they do so.
fn keepers_do<Rt: StoreRuntime + Copy + Drop>(
    host: &HostRuntime,
    rt: Rt,
    path: &str,
    asked: Asked,
) -> Result<bool, Fail> {
    match asked {
        Asked::LoadTheSame => load_the_same(rt, host.alloc(), path),
        Asked::TakeTurns => take_turns(rt, host.alloc(), path),
        Asked::Follow => both_follow(host, rt, path),
        Asked::Miss => new_one_misses(host, rt, path),
        Asked::Fail => fails_at(rt, host.alloc(), path),
    }
}

/// The same over files of the system. No other function names a keeper over them.
fn do_at(rt: HostRuntime, path: &str, asked: Asked) -> Result<bool, Fail> {
    keepers_do(&rt, rt, path, asked)
}

/// The same at a path of one test, where nothing is left then.
fn do_in(rt: HostRuntime, test: &str, asked: Asked) -> Result<bool, Fail> {
    let path = path_of(&rt, test)?;
    let is_done = do_at(rt, path.as_str(), asked)?;
    remove(&rt, path.as_str())?;
    Ok(is_done)
}

#[test]
fn another_keeper_loads_what_was_committed(rt: HostRuntime) -> Result<(), Fail> {
    assert!(rt; do_in(rt, "rows", Asked::LoadTheSame)?);
    Ok(())
}

/// Between two calls neither keeps the file from the other, though each leaves it open.
#[test]
fn two_keepers_take_turns(rt: HostRuntime) -> Result<(), Fail> {
    assert!(rt; do_in(rt, "turns", Asked::TakeTurns)?);
    Ok(())
}

#[test]
fn what_another_program_writes_is_read(rt: HostRuntime) -> Result<(), Fail> {
    assert!(rt; do_in(rt, "other-program", Asked::Follow)?);
    Ok(())
}

#[test]
fn a_store_that_was_moved_away_is_a_failure(rt: HostRuntime) -> Result<(), Fail> {
    assert!(rt; do_in(rt, "place", Asked::Miss)?);
    Ok(())
}

#[test]
fn a_folder_that_does_not_exist_is_a_failure(rt: HostRuntime) -> Result<(), Fail> {
    assert!(rt; do_at(rt, "no/such/folder/flights.db", Asked::Fail)?);
    Ok(())
}

/// Whether keepers fail over a text in a file, which stays.
fn fail_over_text(rt: HostRuntime, path: &str) -> Result<bool, Fail> {
    let text = b"this is no database\n".as_slice();
    fs::write(&rt, path, text)?;
    let is_failure = do_at(rt, path, Asked::Fail)?;
    Ok(is_failure && fs::read(&rt, path)?.as_slice() == text)
}

#[test]
fn a_file_that_is_no_database_is_a_failure_and_stays(rt: HostRuntime) -> Result<(), Fail> {
    let path = path_of(&rt, "text")?;
    assert!(rt; fail_over_text(rt, path.as_str())?);
    remove(&rt, path.as_str())
}
