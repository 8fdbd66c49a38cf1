//! One connection, from its beginning to its end.

ghost use Rattle.std.specs.Prelude.{◌≡◌, ◌||◌, IfOk, OnOk, OnErr, IsTrue, IsFalse};
ghost use Rattle.base_words.specs.Faults.{Rose};
ghost use Rattle.load_io.specs.Sink.{Appends, AppendsPart};
ghost use Rattle.http_wire.specs.Answer.{answer_bytes, is_answered};
ghost use Rattle.desk_answers.specs.Answers.{answered};
ghost use Rattle.desk_http.specs.Served.{Connected, refusal_bytes};
ghost use Rattle.desk_http.specs.Steps.{Steps};

use crate::ending::ConnEnd;
use crate::receiving::receive;
use crate::tools::Tools;
use desk_answers::{Answer, PlainError};
use desk_service::{Counter, answer_asked};
use http_wire::{Refusal, WireFault, answer};
use load_io::{Failed, Link};
use placer::Placing;
use std::alloc::Global;

/// The most requests of a connection.
const MOST_REQUESTS: u32 = 1_000;

/// Writes an answer, or an error in one word, which takes no memory. `closes` announces that the connection ends.
fn send<L: Link>(
    link: &mut L,
    reply: &Result<Answer, PlainError>,
    closes: bool,
) -> Result<(), Failed>
    requires known { IfOk reply.now (λ it. IsTrue (is_answered it.status)) }
    ensures whole { OnOk result (Appends (L.content link.old) (L.content link.new)
        (answer_bytes (answered reply.now).status (answered reply.now).json closes (answered reply.now).body)) }
    ensures part { OnErr result (AppendsPart (L.content link.old) (L.content link.new)
        (answer_bytes (answered reply.now).status (answered reply.now).json closes (answered reply.now).body)) }
    ensures input_kept { L.left link.new ≡ L.left link.old }
    ensures reads_kept { L.read_faults link.new ≡ L.read_faults link.old }
    ensures same_references { L.references link.new ≡ L.references link.old }
    ensures uncounted { OnOk result (L.write_faults link.new ≡ L.write_faults link.old) }
    ensures counted { OnErr result (Rose (L.write_faults link.old) (L.write_faults link.new)) }
{
    match reply {
        Ok(it) => answer(link, it.status, it.json, closes, it.body.as_slice()),
        Err(error) => answer(link, error.status(), true, closes, error.body()),
    }
}

/// Answers what is refused, which ends the connection.
fn refuse<L: Link>(link: &mut L, reason: Refusal) -> Result<(), Failed>
    ensures whole { OnOk result (Appends (L.content link.old) (L.content link.new) (refusal_bytes reason)) }
    ensures part { OnErr result (AppendsPart (L.content link.old) (L.content link.new) (refusal_bytes reason)) }
    ensures input_kept { L.left link.new ≡ L.left link.old }
    ensures reads_kept { L.read_faults link.new ≡ L.read_faults link.old }
    ensures same_references { L.references link.new ≡ L.references link.old }
    ensures uncounted { OnOk result (L.write_faults link.new ≡ L.write_faults link.old) }
    ensures counted { OnErr result (Rose (L.write_faults link.old) (L.write_faults link.new)) }
{
    answer(link, reason.status(), true, true, reason.body())
}

/// Whether the connection closes with an answer: its request is a last one, or no more may follow.
fn closes(last: bool, is_final: bool) -> bool
    ensures { result ≡ (last || is_final) }
{
    last || is_final
}

/// Hears one more request and answers it. None where the connection goes on; after the last request that it may have,
/// which `is_final` says, None too.
fn serve_next<Rt, C: Counter<Rt>, L: Link, P: Placing>(
    rt: &Rt,
    alloc: Global,
    tools: &mut Tools,
    counter: &mut C,
    link: &mut L,
    placing: &P,
    is_final: bool,
) -> Option<ConnEnd>
    requires open { IsFalse tools.old.wire.over }
    ensures steps { Steps L.left L.content L.read_faults L.write_faults (C.setting counter.old) (C.desk counter.old)
        (C.full counter.old) (C.full counter.new) (C.seen counter.old) (C.seen counter.new)
        tools.old.wire.heard tools.new.wire.heard tools.new.wire.over link.old link.new is_final result }
    ensures setting { C.setting counter.new ≡ C.setting counter.old }
    ensures desk { C.desk counter.new ≡ C.desk counter.old }
    ensures full { C.full counter.old → C.full counter.new }
    ensures follows { C.follows counter.old counter.new }
    ensures same_references { L.references link.new ≡ L.references link.old }
{
    match receive(alloc, &mut tools.wire, &tools.router, link) {
        Ok(Some(received)) => {
            let reply = answer_asked(rt, alloc, counter, placing, received.asked);
            match send(link, &reply, closes(received.last, is_final)) {
                Ok(()) if received.last && !is_final => Some(ConnEnd::Ended),
                Ok(()) => None,
                Err(Failed) => Some(ConnEnd::WriteFault),
            }
        }
        Ok(None) => Some(ConnEnd::Ended),
        Err(WireFault::Refused(reason)) => match refuse(link, reason) {
            Ok(()) => Some(ConnEnd::Refused(reason)),
            Err(Failed) => Some(ConnEnd::WriteFault),
        },
        Err(WireFault::ReadFault) => Some(ConnEnd::ReadFault),
    }
}

/// Serves a link, from its beginning to its end: answers its requests one after another, until its input ends, a request
/// is a last one or is refused, a read or a write fails, or there were as many as a connection may have.
pub fn serve_connection<Rt, C: Counter<Rt>, L: Link, P: Placing>(
    rt: &Rt,
    alloc: Global,
    tools: &mut Tools,
    counter: &mut C,
    link: &mut L,
    placing: &P,
) -> ConnEnd
    ensures served { Connected L.left L.content L.read_faults L.write_faults (C.setting counter.old) (C.full counter.old) (C.full counter.new)
        (C.desk counter.old) (C.seen counter.old) (C.seen counter.new) link.old link.new result }
    ensures setting { C.setting counter.new ≡ C.setting counter.old }
    ensures desk { C.desk counter.new ≡ C.desk counter.old }
    ensures full { C.full counter.old → C.full counter.new }
    ensures follows { C.follows counter.old counter.new }
    ensures same_references { L.references link.new ≡ L.references link.old }
{
    tools.wire.restart();
    for _ in 0..MOST_REQUESTS - 1 {
        match serve_next(rt, alloc, tools, counter, link, placing, false) {
            Some(end) => return end,
            None => {}
        }
    }
    match serve_next(rt, alloc, tools, counter, link, placing, true) {
        Some(end) => end,
        None => ConnEnd::Served,
    }
}
