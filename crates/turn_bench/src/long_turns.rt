// Turns that take longer than a desk looks before it parks.
ghost use Rattle.desk_lock.specs.Desks.{IsSameDesk};
ghost use Rattle.desk_lock.specs.Rooms.{AreSameDesks};

use desk_lock::{Desk, Machine, Room, Tally, TallyEntry};
use std::alloc::Global;
use std::process::Abort;
use std::sync::Wait;
use std::sync::atomic::{AtomicBool, Ordering};
use std::test::Fail;
use std::thread;
use std::thread::Threads;

/// How often a turn lets others have the processor: for ten milliseconds or more. A desk parks after some tenths of one.
const TURN_YIELDS: u32 = 50_000;

/// How often the room's desks are waited for: for some seconds at least.
const MOST_YIELDS: u32 = 10_000_000;

/// How many calls each desk makes.
const CALLS: u32 = 3;

/// A tally whose turns are long.
#[derive(Drop)]
struct SlowTally {
    tally: Tally,
}

impl Machine for SlowTally {
    ghost use Rattle.desk_lock.specs.Tallies.{entries, room, IsCounted, IsLater, is_later_itself, is_later_on};

    type Request = u64;

    type Reply = usize;

    type Entry = TallyEntry;

    type Setting = ();

    ghost setting = { λ _. tt };

    ghost follows = { λ first last. IsLater first.tally last.tally };

    ghost history = { λ m. entries m.tally };

    ghost spare = { λ m. room m.tally };

    ghost desk_of = { λ entry. entry.desk };

    ghost lawful = { λ _. Unit {0} };

    ghost fits = { IsCounted };

    ghost few = { λ m. m.tally.few };

    ghost follows_itself = { λ m. is_later_itself m.tally };

    ghost follows_on = { λ first next last. is_later_on first.tally next.tally last.tally };

    fn turn(&mut self, alloc: Global, desk: u32, request: u64) -> usize {
        for _ in 0..TURN_YIELDS {
            thread::yield_now();
        }
        self.tally.turn(alloc, desk, request)
    }
}

/// Makes the calls of a desk.
fn call_some<R: Wait>(rt: &R, alloc: Global, desk: &mut Desk<SlowTally>)
    ensures { IsSameDesk desk.old desk.new }
{
    for request in 0..CALLS {
        if desk.call(rt, alloc, u64::from(request)).is_err() {
            return;
        }
    }
}

/// Has each desk make its calls, in a thread of its own.
fn call_all<R: Threads + Wait + Sync>(rt: &R, alloc: Global, desks: &mut [Desk<SlowTally>])
    ensures { AreSameDesks desks.old desks.new }
{
    thread::for_each_mut(rt, desks, 8, &|_, desk| { call_some(rt, alloc, desk) });
}

/// How many entries a room of so many desks has after their calls. None for no desk or more than 8, and where memory runs out.
fn count_entries<R: Threads + Wait + Sync>(rt: &R, alloc: Global, desks: u32) -> Option<usize> {
    if !(1..=8).contains(&desks) {
        return None;
    }
    let capacity = desks * CALLS;
    let machine = SlowTally {
        tally: Tally::with_room(alloc, capacity).ok()?,
    };
    let Ok((room, mut desks)) = Room::start(alloc, machine, desks, u64::from(capacity)) else {
        return None;
    };
    call_all(rt, alloc, desks.as_mut_slice());
    Some(room.close(desks).tally.into_entries().len())
}

/// Stops the test where the flag does not rise in time.
fn watch<R: Abort>(rt: &R, done: &AtomicBool) {
    for _ in 0..MOST_YIELDS {
        if done.load(Ordering::SeqCst) {
            return;
        }
        thread::yield_now();
    }
    assert!(rt; false, "a desk that had parked was not woken");
}

#[test]
fn a_desk_that_parked_is_woken_when_its_turn_comes(rt: HostRuntime) -> Result<(), Fail> {
    for desks in 2..4 {
        let done = AtomicBool::new(false);
        let calls = || {
            let count = count_entries(&rt, rt.alloc(), desks);
            done.store(true, Ordering::SeqCst);
            count
        };
        let (count, ()) = thread::join(&rt, calls, || watch(&rt, &done));
        assert_eq!(rt; count, Some((desks * CALLS) as usize));
    }
    Ok(())
}
