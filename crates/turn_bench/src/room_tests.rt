ghost use Rattle.std.specs.Prelude.{◌≡◌, length};
ghost use Rattle.desk_lock.specs.Rooms.{AreSameDesks};

use desk_lock::{Desk, Room, Tally, TallyEntry};
use std::alloc::Global;
use std::sync::Wait;
use std::test::Fail;

/// A room of two desks for three turns, with its desks in the order of their numbers.
fn small_room(alloc: Global) -> Option<(Room<Tally>, Desk<Tally>, Desk<Tally>, Vec<Desk<Tally>>)> {
    let machine = Tally::with_room(alloc, 3).ok()?;
    let (room, mut desks) = Room::start(alloc, machine, 2, 3).ok()?;
    let second = desks.pop()?;
    let first = desks.pop()?;
    Some((room, first, second, desks))
}

#[test]
fn a_full_room_gives_requests_back(rt: HostRuntime) -> Result<(), Fail> {
    let alloc = rt.alloc();
    let (_, mut first, mut second, _) = small_room(alloc).expect(&rt, "memory");
    assert_eq!(rt; (first.number(), second.number()), (1, 2));
    assert_eq!(rt; first.ticket(), None);
    assert_eq!(rt; first.call(&rt, alloc, 7).ok(), Some(1));
    assert_eq!(rt; second.call(&rt, alloc, 8).ok(), Some(2));
    assert_eq!(rt; first.call(&rt, alloc, 9).ok(), Some(3));
    assert_eq!(rt; (first.ticket(), first.is_full()), (Some(2), false));
    for request in 10..12 {
        let full = second.call(&rt, alloc, request).err();
        assert_eq!(rt; full.map(|full| full.request), Some(request));
        assert_eq!(rt; (second.ticket(), second.is_full()), (Some(3), true));
    }
    Ok(())
}

/// Calls so often, by the two desks in turn, and keeps the replies, `None` for `Full`.
fn call_in_turn<R: Wait>(
    rt: &R,
    alloc: Global,
    desks: &mut [Desk<Tally>],
    count: usize,
    replies: &mut Vec<Option<usize>>,
)
    requires { length desks.old ≡ 2 }
    ensures { AreSameDesks desks.old desks.new }
{
    for n in 0..count {
        let reply = desks[n % 2].call(rt, alloc, n as u64).ok();
        if replies.push(reply).is_err() {
            return;
        }
    }
}

/// The entries of a room of two desks for three turns, after so many calls of the desks in turn.
fn entries_after<R: Wait>(
    rt: &R,
    alloc: Global,
    count: usize,
    replies: &mut Vec<Option<usize>>,
) -> Option<Vec<TallyEntry>> {
    let machine = Tally::with_room(alloc, 3).ok()?;
    let Ok((room, mut desks)) = Room::start(alloc, machine, 2, 3) else {
        return None;
    };
    call_in_turn(rt, alloc, desks.as_mut_slice(), count, replies);
    Some(room.close(desks).into_entries())
}

#[test]
fn a_closed_room_has_an_entry_for_each_turn(rt: HostRuntime) -> Result<(), Fail> {
    let alloc = rt.alloc();
    let mut replies = Vec::new(alloc);
    let entries = entries_after(&rt, alloc, 4, &mut replies).expect(&rt, "memory");
    assert_eq!(rt;
        replies.as_slice(),
        [Some(1), Some(2), Some(3), None].as_slice()
    );
    for (n, entry) in entries.iter().enumerate() {
        assert_eq!(rt;
            (u64::from(entry.desk), entry.request),
            (n as u64 % 2 + 1, n as u64)
        );
    }
    assert_eq!(rt; entries.len(), 3);
    Ok(())
}
