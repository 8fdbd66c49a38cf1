//! Bays: a door with the desk that works at it.

ghost use Rattle.std.specs.Prelude.{◌≡◌, ◌<◌, ◌≤◌, ◌↔◌, [], true, All, IsTrue, length, map, reverse, vec_len, vec_capacity};
ghost use Rattle.desk_serve.specs.Bays.{AreEach, Worked};

use crate::attending::attend;
use desk_http::Tools;
use desk_lock::Desk;
use desk_service::Bench;
use keeper::Keeper;
use load_io::Door;
use placer::Placing;
use std::alloc::Global;
use std::sync::Wait;
use std::thread;
use std::thread::Threads;

/// What has the tools of a connection. A thread takes a bay whose tools are of some type, so that the proof that it may take them
/// is one of its own.
pub(crate) trait Toolbox: Send {
    fn tools(&mut self) -> &mut Tools;
}

impl Toolbox for Tools {
    fn tools(&mut self) -> &mut Tools {
        self
    }
}

/// A door, the desk that works at it, and what the desk works with.
pub(crate) struct Bay<K: Keeper + Drop, D, T> {
    pub(crate) door: D,
    pub(crate) desk: Desk<Bench<K>>,
    pub(crate) tools: T,
    /// Whether the door is closed.
    pub(crate) closed: bool,
}

/// The desk works at its door until that is closed or fails.
fn work<Rt: Wait, K: Keeper + Drop, D: Door, T: Toolbox, P: Placing>(
    rt: &Rt,
    alloc: Global,
    bay: &mut Bay<K, D, T>,
    placing: &P,
)
    ensures { Worked D.coming D.handed D.faults D.Link.left D.Link.content D.Link.read_faults D.Link.write_faults
        bay.old.desk bay.new.desk bay.old.door bay.new.door bay.new.closed }
{
    bay.closed = attend(
        rt,
        alloc,
        bay.tools.tools(),
        &mut bay.desk,
        &mut bay.door,
        placing,
    );
}

/// All desks work at their doors, each in a thread of its own.
fn work_all<
    Rt: Threads + Wait + Sync,
    K: Keeper + Send + Drop,
    D: Door + Send,
    T: Toolbox,
    P: Placing + Sync,
>(rt: &Rt, alloc: Global, bays: &mut [Bay<K, D, T>], placing: &P)
    ensures many { length bays.new ≡ length bays.old }
    ensures each { AreEach (λ b b'. Worked D.coming D.handed D.faults D.Link.left D.Link.content D.Link.read_faults D.Link.write_faults
        b.desk b'.desk b.door b'.door b'.closed) bays.old bays.new }
{
    thread::for_each_mut(
        rt,
        bays,
        8,
        &|_, bay: &mut Bay<K, D, T>|
            ensures { Worked D.coming D.handed D.faults D.Link.left D.Link.content D.Link.read_faults D.Link.write_faults
                bay.entry.now.desk bay.exit.now.desk bay.entry.now.door bay.exit.now.door bay.exit.now.closed }
        { work(rt, alloc, bay, placing) },
    );
}

/// The same with the tools of connections.
pub(crate) fn work_with_tools<
    Rt: Threads + Wait + Sync,
    K: Keeper + Send + Drop,
    D: Door + Send,
    P: Placing + Sync,
>(rt: &Rt, alloc: Global, bays: &mut [Bay<K, D, Tools>], placing: &P)
    ensures many { length bays.new ≡ length bays.old }
    ensures each { AreEach (λ b b'. Worked D.coming D.handed D.faults D.Link.left D.Link.content D.Link.read_faults D.Link.write_faults
        b.desk b'.desk b.door b'.door b'.closed) bays.old bays.new }
{
    work_all(rt, alloc, bays, placing);
}

/// Whether all doors are closed.
pub(crate) fn are_all_closed<K: Keeper + Drop, D, T>(bays: &[Bay<K, D, T>]) -> bool
    ensures { IsTrue result ↔ All (λ bay. bay.closed ≡ true) bays.now }
{
    bays.iter().all(|bay| bay.closed)
}

/// Puts each door with the desk of its place into a bay, the last pair first.
pub(crate) fn pair<K: Keeper + Drop, D, T: Drop>(
    doors: &mut Vec<D>,
    desks: &mut Vec<Desk<Bench<K>>>,
    mut tools: Vec<T>,
    bays: &mut Vec<Bay<K, D, T>>,
)
    requires same { (vec_len doors.old ≡ vec_len desks.old) × (vec_len doors.old ≡ vec_len tools) }
    requires room { (bays.old.items ≡ []) × (vec_len doors.old ≤ vec_capacity bays.old) }
    ensures doors { doors.old.items ≡ map (λ b. b.door) (reverse bays.new.items) }
    ensures desks { desks.old.items ≡ map (λ b. b.desk) (reverse bays.new.items) }
    ensures empty { (doors.new.items ≡ []) × (desks.new.items ≡ []) }
    ensures kept { (vec_len doors.old ≤ vec_capacity doors.new) × (vec_len desks.old ≤ vec_capacity desks.new) }
{
    while let Some(door) = doors.pop() {
        match (desks.pop(), tools.pop()) {
            (Some(desk), Some(tools)) => bays.push_reserved(Bay {
                door,
                desk,
                tools,
                closed: false,
            }),
            _ => unreachable!(),
        }
    }
}

/// Takes the bays apart, whose doors and desks are in order again.
pub(crate) fn part<K: Keeper + Drop, D, T: Drop>(
    mut bays: Vec<Bay<K, D, T>>,
    doors: &mut Vec<D>,
    desks: &mut Vec<Desk<Bench<K>>>,
)
    requires room { (vec_len bays ≤ vec_capacity doors.old) × (vec_len bays ≤ vec_capacity desks.old) }
    requires empty { (doors.old.items ≡ []) × (desks.old.items ≡ []) }
    ensures doors { doors.new.items ≡ map (λ b. b.door) (reverse bays.items) }
    ensures desks { desks.new.items ≡ map (λ b. b.desk) (reverse bays.items) }
{
    while let Some(bay) = bays.pop() {
        let Bay {
            door,
            desk,
            tools: _tools,
            closed: _,
        } = bay;
        doors.push_reserved(door);
        desks.push_reserved(desk);
    }
    bays.destroy_empty();
}
