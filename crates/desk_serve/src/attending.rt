//! The links of one door, one after another.

ghost use Rattle.std.specs.Prelude.{◌≡◌};
ghost use Rattle.desk_serve.specs.Doors.{Attended};

use desk_http::{Tools, serve_connection};
use desk_service::Counter;
use load_io::{Door, Failed};
use placer::Placing;
use std::alloc::Global;
use std::sync::Wait;

/// Serves the links of a door one after another, until the door is closed or fails. Answers whether it is closed.
///
/// It may wait forever: nothing is claimed on when a link comes in, or on when its bytes do.
pub fn attend<Rt: Wait, C: Counter<Rt>, D: Door, P: Placing>(
    rt: &Rt,
    alloc: Global,
    tools: &mut Tools,
    counter: &mut C,
    door: &mut D,
    placing: &P,
) -> bool
    ensures attended { Attended D.coming D.handed D.faults D.Link.left D.Link.content D.Link.read_faults D.Link.write_faults
        (C.setting counter.old) (C.full counter.new) (C.desk counter.old) (C.seen counter.old) (C.seen counter.new)
        door.old door.new result }
    ensures setting { C.setting counter.new ≡ C.setting counter.old }
    ensures desk { C.desk counter.new ≡ C.desk counter.old }
    ensures full { C.full counter.old → C.full counter.new }
    ensures follows { C.follows counter.old counter.new }
{
    for _ in rt.forever() {
        match door.next() {
            Ok(Some(mut link)) => {
                serve_connection(rt, alloc, tools, counter, &mut link, placing);
                door.done(link);
            }
            Ok(None) => return true,
            Err(Failed) => return false,
        }
    }
    unreachable!()
}
