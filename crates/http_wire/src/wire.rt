// A wire hears the requests of a link, one after another.
ghost use Rattle.std.specs.Prelude.{◌≡◌, ◌≤◌, [], length, IfOk, IfSome, IsFalse, false};
ghost use Rattle.std.specs.Borrow.{sem};
ghost use Rattle.http_wire.specs.Hearing.{to_come, request_of, HearsNext, Counts};
ghost use Rattle.http_wire.specs.Lending.{WireRests};
ghost use Rattle.http_wire.specs.Places.{AreWithin, request_at};

use crate::WireFault;
use crate::heads::RequestPlaces;
use crate::hearing::hear_in;
use crate::limits::MOST_REQUEST;
use base_words::NoMemory;
use load_io::Link;
use std::alloc::Global;
use std::marker::Model;

/// A request, whose bytes the wire lends.
#[derive(Clone, Copy, Debug)]
pub struct Heard<'a> {
    /// The method, as `GET`.
    pub method: &'a [u8],

    /// The target, as `/flights`.
    pub target: &'a [u8],

    /// The body, which may be empty.
    pub body: &'a [u8],

    /// Whether no other request follows on the connection.
    pub last: bool,
}

/// Hears the requests of a link. It has room for two requests of the greatest length, so bytes that come along with
/// an earlier request are moved once at most.
#[derive(Drop)]
pub struct Wire {
    buffer: Vec<u8>,

    // The last request is at `from..start` of the buffer, and what was heard behind it at `start..end`.
    from: usize,
    start: usize,
    end: usize,
    over: bool,
}

impl Model for Wire {
    ghost use Rattle.std.specs.Prelude.{◌≡◌, ◌≤◌, ◌+◌, vec_len, slice_range};
    ghost use Rattle.http_wire.specs.Hearing.{Hearing};

    ghost Value = { Hearing };

    ghost view = { λ wire. record {
      used = slice_range wire.buffer.items wire.from wire.start;
      heard = slice_range wire.buffer.items wire.start wire.end;
      over = wire.over;
    } };

    ghost invariant = { λ wire. (wire.from ≤ wire.start) × (wire.start ≤ wire.end) × (wire.end ≤ wire.start + 24576)
        × (wire.end ≤ 49152) × (vec_len wire.buffer ≡ 49152) };
}

impl Wire {
    /// A wire that has heard nothing. It takes all its memory here.
    pub fn new(alloc: Global) -> Result<Wire, NoMemory>
        ensures { IfOk result (λ wire. wire ≡ record { used = []; heard = []; over = false }) }
    {
        Ok(Wire {
            buffer: vec![in alloc; 0u8; 2 * MOST_REQUEST]?,
            from: 0,
            start: 0,
            end: 0,
            over: false,
        })
    }

    /// Forgets all that was heard, for the next link.
    pub fn restart(&mut self)
        ensures { self.new ≡ record { used = []; heard = []; over = false } }
    {
        self.from = 0;
        self.start = 0;
        self.end = 0;
        self.over = false;
    }

    /// Hears the next request of the link. None is the end of the input between requests. After that, after a fault
    /// and after a last request nothing more is to be heard until the wire is restarted.
    pub fn next<L: Link>(&mut self, link: &mut L) -> Result<Option<Heard<'_>>, WireFault>
        requires open { IsFalse self.old.over }
        ensures* heard { sem 𝓛 (WireRests self.entry (λ new.
            HearsNext request_of (to_come self.old.heard (L.left link.old)) (L.left link.new) result new)) }
        ensures output_kept { L.content link.new ≡ L.content link.old }
        ensures writes_kept { L.write_faults link.new ≡ L.write_faults link.old }
        ensures same_references { L.references link.new ≡ L.references link.old }
        ensures counts { Counts result (L.read_faults link.old) (L.read_faults link.new) }
        ensures never_falls { L.read_faults link.old ≤ L.read_faults link.new }
    {
        match self.hear(link) {
            Ok(Some(places)) => Ok(Some(self.request(places))),
            Ok(None) => Ok(None),
            Err(fault) => Err(fault),
        }
    }

    /// Hears the next request, keeps its bytes, and returns their places.
    fn hear<L: Link>(&mut self, link: &mut L) -> Result<Option<RequestPlaces>, WireFault>
        requires open { IsFalse self.old.over }
        ensures within { IfOk result (λ places. IfSome places (AreWithin (length self.new.used))) }
        ensures heard { HearsNext (request_at self.new.used)
            (to_come self.old.heard (L.left link.old)) (L.left link.new) result self.new }
        ensures output_kept { L.content link.new ≡ L.content link.old }
        ensures writes_kept { L.write_faults link.new ≡ L.write_faults link.old }
        ensures same_references { L.references link.new ≡ L.references link.old }
        ensures counts { Counts result (L.read_faults link.old) (L.read_faults link.new) }
        ensures never_falls { L.read_faults link.old ≤ L.read_faults link.new }
    {
        self.from = 0;
        self.over = true;
        match hear_in(link, &mut self.buffer, &mut self.start, &mut self.end) {
            Ok(Some(places)) => {
                self.from = self.start;
                self.start += places.body.end;
                self.over = places.last;
                Ok(Some(places))
            }
            Ok(None) => Ok(None),
            Err(fault) => Err(fault),
        }
    }

    /// The request whose parts are at these places of the last request's bytes.
    fn request(&self, places: RequestPlaces) -> Heard<'_>
        requires within { AreWithin (length self.now.used) places }
        ensures { request_of result ≡ request_at self.now.used places }
    {
        let bytes = &self.buffer[self.from..self.start];
        Heard {
            method: places.method.of(bytes),
            target: places.target.of(bytes),
            body: places.body.of(bytes),
            last: places.last,
        }
    }
}
