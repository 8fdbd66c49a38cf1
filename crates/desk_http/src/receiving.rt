//! The next request of a link, and what it asks.

ghost use Rattle.std.specs.Prelude.{◌≡◌, ◌≤◌, IfOk, IfSome, IsFalse};
ghost use Rattle.desk_requests.specs.Within.{IsLawful};
ghost use Rattle.http_wire.specs.Hearing.{Counts, Hears, over_after, to_come};
ghost use Rattle.desk_http.specs.Received.{IsReceived};

use desk_answers::PlainError;
use desk_requests::{Asked, read_request};
use desk_routes::DeskRouter;
use http_wire::{Wire, WireFault};
use load_io::Link;
use std::alloc::Global;

/// What a request asks, and whether no other request follows on its connection.
#[derive(Debug, Drop)]
pub struct Received {
    pub asked: Result<Asked, PlainError>,
    pub last: bool,
}

/// The next request of the link, and what it asks. None is the end of the input between requests.
pub fn receive<L: Link>(
    alloc: Global,
    wire: &mut Wire,
    router: &DeskRouter,
    link: &mut L,
) -> Result<Option<Received>, WireFault>
    requires open { IsFalse wire.old.over }
    ensures heard { Hears (IsReceived (to_come wire.old.heard (L.left link.old)) (L.left link.new) wire.new.heard)
        (to_come wire.old.heard (L.left link.old)) (L.left link.new) result }
    ensures over { wire.new.over ≡ over_after (λ it. it.last) result }
    ensures lawful { IfOk result (λ received. IfSome received (λ it. IfOk it.asked IsLawful)) }
    ensures output_kept { L.content link.new ≡ L.content link.old }
    ensures writes_kept { L.write_faults link.new ≡ L.write_faults link.old }
    ensures same_references { L.references link.new ≡ L.references link.old }
    ensures counts { Counts result (L.read_faults link.old) (L.read_faults link.new) }
{
    match wire.next(link) {
        Ok(Some(heard)) => Ok(Some(Received {
            asked: read_request(alloc, router, heard.method, heard.target, heard.body),
            last: heard.last,
        })),
        Ok(None) => Ok(None),
        Err(fault) => Err(fault),
    }
}
