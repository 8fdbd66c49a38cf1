//! All doors, each with its desk, from the opening of the office until it is closed.

ghost use Rattle.std.specs.Prelude.{◌≡◌, ◌<◌, ◌≤◌, ◌^◌, [], length, vec_len, vec_capacity, IfOk, OnErr};
ghost use Rattle.editions.specs.Books.{HasTables};
ghost use Rattle.desk_service.specs.Several.{IsAfter, room_for};
ghost use Rattle.desk_service.specs.Turns.{setting_of};
ghost use Rattle.desk_serve.specs.Bays.{AllWorked, ending_of};
ghost use Rattle.desk_serve.specs.Doors.{AreServedDoors, EndAs};
ghost use Rattle.desk_serve.specs.Service.{IsOneHistory};

use crate::bays::{Bay, are_all_closed, pair, part, work_with_tools};
use crate::ending::DoorsEnd;
use crate::office_run::OfficeRun;
use base_words::NoMemory;
use desk_http::Tools;
use desk_lock::{Desk, Room};
use desk_service::Bench;
use editions::Office;
use keeper::Keeper;
use load_io::Door;
use placer::Placing;
use std::alloc::Global;
use std::sync::Wait;
use std::thread::Threads;

/// What an office that served doors leaves. The ending is `NoMemory` where there was no memory to begin.
pub type DoorsRun<K, D> = OfficeRun<Result<DoorsEnd, NoMemory>, K, Vec<D>>;

/// The memory for the bays, and the tools of their desks.
struct Prepared<K: Keeper + Drop, D> {
    /// An empty list with room for the bays.
    bays: Vec<Bay<K, D, Tools>>,
    tools: Vec<Tools>,
}

/// Tools for so many desks.
fn tools_for(alloc: Global, count: usize) -> Result<Vec<Tools>, NoMemory>
    ensures { IfOk result (λ tools. vec_len tools ≡ count) }
{
    let mut tools = Vec::with_capacity(alloc, count)?;
    for _ in 0..count {
        tools.push_reserved(Tools::new(alloc)?);
    }
    Ok(tools)
}

/// Takes all memory that so many bays need.
fn prepare<K: Keeper + Drop, D>(alloc: Global, count: usize) -> Result<Prepared<K, D>, NoMemory>
    ensures bays { IfOk result (λ p. (p.bays.items ≡ []) × (count ≤ vec_capacity p.bays)) }
    ensures tools { IfOk result (λ p. vec_len p.tools ≡ count) }
{
    let tools = tools_for(alloc, count)?;
    let bays = Vec::with_capacity(alloc, count)?;
    Ok(Prepared { bays, tools })
}

/// All desks work at their doors. Answers whether all doors are closed.
fn work_at_doors<
    Rt: Threads + Wait + Sync,
    K: Keeper + Send + Drop,
    D: Door + Send,
    P: Placing + Sync,
>(
    rt: &Rt,
    alloc: Global,
    doors: &mut Vec<D>,
    desks: &mut Vec<Desk<Bench<K>>>,
    prepared: Prepared<K, D>,
    placing: &P,
) -> bool
    requires same { (vec_len doors.old ≡ vec_len desks.old) × (vec_len doors.old ≡ vec_len prepared.tools) }
    requires room { (prepared.bays.items ≡ []) × (vec_len doors.old ≤ vec_capacity prepared.bays) }
    ensures { AllWorked D.coming D.handed D.faults D.Link.left D.Link.content D.Link.read_faults D.Link.write_faults
        doors.old.items doors.new.items desks.old.items desks.new.items result }
{
    let Prepared { mut bays, tools } = prepared;
    pair(doors, desks, tools, &mut bays);
    work_with_tools(rt, alloc, bays.as_mut_slice(), placing);
    let all = are_all_closed(bays.as_slice());
    part(bays, doors, desks);
    all
}

/// How the work ended, by whether all doors are closed.
fn end_of(all: bool) -> DoorsEnd
    ensures { result ≡ ending_of all }
{
    if all {
        DoorsEnd::Closed
    } else {
        DoorsEnd::Failed
    }
}

/// What a room over the bench leaves.
struct RoomRun<K: Keeper + Drop, D> {
    ending: Result<DoorsEnd, NoMemory>,
    bench: Bench<K>,
    doors: Vec<D>,
}

/// A room over the bench has a desk for each door, for so many entries, and is closed when all desks are done.
fn work_in_room<
    Rt: Threads + Wait + Sync,
    K: Keeper + Send + Drop,
    D: Door + Send,
    P: Placing + Sync,
>(
    rt: &Rt,
    alloc: Global,
    bench: Bench<K>,
    capacity: u64,
    mut doors: Vec<D>,
    placing: &P,
) -> RoomRun<K, D>
    requires doors { (0 < vec_len doors) × (vec_len doors ≤ 8) }
    requires unasked { bench.books.history ≡ [] }
    requires spare { capacity ≤ room_for bench }
    ensures memory { OnErr result.ending ((result.bench ≡ bench) × (result.doors.items ≡ doors.items)) }
    ensures after { IfOk result.ending (λ _. IsAfter bench result.bench) }
    ensures served { IfOk result.ending (λ _. AreServedDoors D.coming D.handed D.faults
        D.Link.left D.Link.content D.Link.read_faults D.Link.write_faults
        (setting_of bench.books) (length result.bench.books.history ≡ capacity)
        result.bench.books.history doors.items result.doors.items) }
    ensures ended { IfOk result.ending (λ ending. EndAs D.coming D.handed D.faults ending doors.items result.doors.items) }
{
    let prepared = match prepare(alloc, doors.len()) {
        Ok(prepared) => prepared,
        Err(NoMemory) => {
            return RoomRun {
                ending: Err(NoMemory),
                bench,
                doors,
            };
        }
    };
    let (room, mut desks) = match Room::start(alloc, bench, doors.len() as u32, capacity) {
        Ok(started) => started,
        Err(refused) => {
            let Prepared {
                bays,
                tools: _tools,
            } = prepared;
            bays.destroy_empty();
            return RoomRun {
                ending: Err(NoMemory),
                bench: refused.machine,
                doors,
            };
        }
    };
    let all = work_at_doors(rt, alloc, &mut doors, &mut desks, prepared, placing);
    let bench = room.close(desks);
    RoomRun {
        ending: Ok(end_of(all)),
        bench,
        doors,
    }
}

/// Serves all doors until they are closed or fail: each door has a desk of its own, the first one desk 1, and all desks
/// work at once over the office. Whatever its links bring, the replies are those of one history.
///
/// All memory that the desks work with is taken before the first door is asked. It may wait forever, as [`attend`](crate::attend)
/// does.
pub fn serve_doors<
    Rt: Threads + Wait + Sync,
    K: Keeper + Send + Drop,
    D: Door + Send,
    P: Placing + Sync,
>(rt: &Rt, alloc: Global, office: Office, keeper: K, doors: Vec<D>, placing: &P) -> DoorsRun<K, D>
    requires doors { (0 < vec_len doors) × (vec_len doors ≤ 8) }
    requires tables { HasTables (K.tables keeper) office }
    requires unasked { office.history ≡ [] }
    requires few { office.spare < 2 ^ 63 }
    ensures served { IfOk result.ending (λ ending. IsOneHistory D.coming D.handed D.faults
        D.Link.left D.Link.content D.Link.read_faults D.Link.write_faults
        office (K.tables result.keeper) (K.faults keeper) (K.faults result.keeper)
        doors.items result.doors.items ending result.opening.items result.history.items) }
    ensures unserved { OnErr result.ending ((result.doors.items ≡ doors.items) × (result.history.items ≡ [])
        × (K.faults result.keeper ≡ K.faults keeper)) }
    ensures kept { OnErr result.ending (HasTables (K.tables result.keeper) office) }
{
    let capacity = office.spare();
    let bench = Bench::new(office, keeper);
    let RoomRun {
        ending,
        bench,
        doors,
    } = work_in_room(rt, alloc, bench, capacity, doors, placing);
    let (office, keeper) = bench.parts();
    let (opening, history) = office.parts();
    OfficeRun {
        ending,
        keeper,
        doors,
        opening,
        history,
    }
}
