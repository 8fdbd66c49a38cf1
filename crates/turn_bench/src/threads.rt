//! Desks in threads of their own.

ghost use Rattle.std.specs.Prelude.{◌<◌, ◌≤◌};
ghost use Rattle.desk_lock.specs.Desks.{IsSameDesk};
ghost use Rattle.desk_lock.specs.Rooms.{AreSameDesks};

use desk_lock::{Desk, Room, Tally, TallyEntry};
use std::alloc::Global;
use std::sync::Wait;
use std::thread;
use std::thread::Threads;

/// How many desks there are, and how many calls each makes.
#[derive(Clone, Copy, Debug)]
pub struct Sizes {
    desks: u32,
    calls: u32,
    ghost some: { 0 < desks },
    ghost few: { desks ≤ 8 },
    ghost short: { calls ≤ 1000000 },
}

impl Sizes {
    /// None for no desk or more than 8, and for more than 1,000,000 calls of each.
    pub fn new(desks: u32, calls: u32) -> Option<Sizes> {
        if (1..=8).contains(&desks) && calls <= 1_000_000 {
            Some(Sizes { desks, calls })
        } else {
            None
        }
    }

    pub fn desks(self) -> u32 {
        self.desks
    }
}

/// Makes so many calls, with the requests 0, 1, 2 and so on.
fn call_often<R: Wait>(rt: &R, alloc: Global, desk: &mut Desk<Tally>, calls: u32)
    ensures { IsSameDesk desk.old desk.new }
{
    for request in 0..calls {
        if desk.call(rt, alloc, u64::from(request)).is_err() {
            return;
        }
    }
}

/// Has each desk make so many calls, in a thread of its own.
fn call_all<R: Threads + Wait + Sync>(rt: &R, alloc: Global, desks: &mut [Desk<Tally>], calls: u32)
    ensures { AreSameDesks desks.old desks.new }
{
    thread::for_each_mut(
        rt,
        desks,
        8,
        &|_, desk| { call_often(rt, alloc, desk, calls) },
    );
}

/// The entries of a room after the calls of all its desks. None where memory runs out.
pub fn run_threads<R: Threads + Wait + Sync>(
    rt: &R,
    alloc: Global,
    sizes: Sizes,
) -> Option<Vec<TallyEntry>> {
    let capacity = sizes.desks * sizes.calls;
    let machine = Tally::with_room(alloc, capacity).ok()?;
    let Ok((room, mut desks)) = Room::start(alloc, machine, sizes.desks, u64::from(capacity)) else {
        return None;
    };
    call_all(rt, alloc, desks.as_mut_slice(), sizes.calls);
    Some(room.close(desks).into_entries())
}

/// Whether the desk's own entries are its calls, each once and in order.
fn is_in_order(entries: &[TallyEntry], desk: u32, calls: u32) -> bool {
    let own = entries.iter().filter(|entry| entry.desk == desk);
    own.map(|entry| entry.request).eq(0..u64::from(calls))
}

/// Whether the entries of each desk are its calls, each once and in order.
pub fn are_in_order(entries: &[TallyEntry], sizes: Sizes) -> bool {
    (1..=sizes.desks).all(|desk| is_in_order(entries, desk, sizes.calls))
}
