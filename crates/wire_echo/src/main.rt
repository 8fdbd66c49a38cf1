//! Answers each request of the standard input with the request's own body, for trials of `http_wire` over the real
//! standard input and output. `bench/wire.sh` counts its instructions.
#![tactic(auto)]

ghost use Rattle.std.specs.Prelude.{IsFalse};

use base_words::NoMemory;
use http_wire::{Wire, WireFault, answer};
use load_io::{Joined, Link, StdSink, StdSource};

fn main(rt: HostRuntime) -> Result<(), NoMemory> {
    let mut wire = Wire::new(rt.alloc())?;
    wire.restart();
    let mut input = StdSource::new(&rt);
    let mut out = StdSink::new(&rt);
    let mut link = Joined {
        input: &mut input,
        out: &mut out,
    };
    echo(&mut wire, &mut link);
    Ok(())
}

/// Answers the requests of the link until it ends, one is refused, or one is the last.
fn echo<L: Link>(wire: &mut Wire, link: &mut L)
    requires open { IsFalse wire.old.over }
{
    for _ in 0..1000000 {
        match wire.next(link) {
            Ok(Some(heard)) => {
                let last = heard.last;
                if answer(link, 200, false, last, heard.body).is_err() || last {
                    return;
                }
            }
            Ok(None) => return,
            Err(WireFault::Refused(reason)) => {
                let _ = answer(link, reason.status(), true, true, reason.body());
                return;
            }
            Err(WireFault::ReadFault) => return,
        }
    }
}
