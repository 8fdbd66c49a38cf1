// Requests as they come from a link into a buffer, of which the first `end` bytes have been heard.
ghost use Rattle.std.specs.Prelude.{◌≡◌, ◌+◌, ◌<◌, ◌≤◌, [], length, take, slice_range, Ok, IfOk, IfSome, OnOk, OnErr};
ghost use Rattle.base_words.specs.Faults.{Rose};
ghost use Rattle.httparse.specs.Grammar.{HasNoRequest};
ghost use Rattle.http_wire.specs.Hearing.{to_come, Hears, Counts};
ghost use Rattle.http_wire.specs.Places.{HasWholeHead, HasWholeRequest, HearsAt};
ghost use Rattle.http_wire.specs.Requests.{most_head};

use crate::heads::{HeadSearch, RequestPlaces, find_head};
use crate::limits::{MOST_HEAD, MOST_REQUEST};
use crate::{Refusal, WireFault};
use load_io::{Failed, Link};

/// Reads into the room behind the first `end` bytes.
fn read_more<L: Link>(link: &mut L, buffer: &mut [u8], end: usize) -> Result<usize, Failed>
    requires room { end < length buffer.old }
    ensures size { length buffer.new ≡ length buffer.old }
    ensures within { IfOk result (λ n. end + n ≤ length buffer.old) }
    ensures kept { take end buffer.new ≡ take end buffer.old }
    ensures heard { IfOk result (λ n.
        to_come (take (end + n) buffer.new) (L.left link.new) ≡ to_come (take end buffer.old) (L.left link.old)) }
    ensures ended { result ≡ Ok 0 → IfSome (L.left link.old) (λ bytes. bytes ≡ []) }
    ensures untouched { OnErr result (L.left link.new ≡ L.left link.old) }
    ensures output_kept { L.content link.new ≡ L.content link.old }
    ensures writes_kept { L.write_faults link.new ≡ L.write_faults link.old }
    ensures same_references { L.references link.new ≡ L.references link.old }
    ensures never_falls { L.read_faults link.old ≤ L.read_faults link.new }
    ensures uncounted { OnOk result (L.read_faults link.new ≡ L.read_faults link.old) }
    ensures counted { OnErr result (Rose (L.read_faults link.old) (L.read_faults link.new)) }
{
    link.read(&mut buffer[end..])
}

/// Hears more of an unfinished head, and returns how much has been heard then. None is the end of an input without
/// a head.
fn hear_more<L: Link>(
    link: &mut L,
    buffer: &mut [u8],
    end: usize,
) -> Result<Option<usize>, WireFault>
    requires size { length buffer.old ≡ 24576 }
    requires full { end ≤ 24576 }
    requires unfinished { HasNoRequest (take most_head (take end buffer.old)) }
    ensures size { length buffer.new ≡ 24576 }
    ensures more { IfOk result (λ further. IfSome further (λ n. (end < n) × (n ≤ 24576))) }
    ensures heard { Hears
        (λ n. to_come (take n buffer.new) (L.left link.new) ≡ to_come (take end buffer.old) (L.left link.old))
        (to_come (take end buffer.old) (L.left link.old)) (L.left link.new) result }
    ensures output_kept { L.content link.new ≡ L.content link.old }
    ensures writes_kept { L.write_faults link.new ≡ L.write_faults link.old }
    ensures same_references { L.references link.new ≡ L.references link.old }
    ensures counts { Counts result (L.read_faults link.old) (L.read_faults link.new) }
    ensures never_falls { L.read_faults link.old ≤ L.read_faults link.new }
{
    if end >= MOST_HEAD {
        return Err(WireFault::Refused(Refusal::HeadTooLong));
    }
    match read_more(link, buffer, end) {
        Err(Failed) => Err(WireFault::ReadFault),
        Ok(0) if end == 0 => Ok(None),
        Ok(0) => Err(WireFault::Refused(Refusal::BadHead)),
        Ok(n) => Ok(Some(end + n)),
    }
}

/// Hears a head, and returns the places of its request. None is the end of an input without a head.
fn hear_head<L: Link>(
    link: &mut L,
    buffer: &mut [u8],
    end: &mut usize,
) -> Result<Option<RequestPlaces>, WireFault>
    requires size { length buffer.old ≡ 24576 }
    requires full { end.old ≤ 24576 }
    ensures size { length buffer.new ≡ 24576 }
    ensures full { end.new ≤ 24576 }
    ensures heard { HearsAt HasWholeHead (take end.old buffer.old) (L.left link.old)
        (take end.new buffer.new) (L.left link.new) result }
    ensures output_kept { L.content link.new ≡ L.content link.old }
    ensures writes_kept { L.write_faults link.new ≡ L.write_faults link.old }
    ensures same_references { L.references link.new ≡ L.references link.old }
    ensures counts { Counts result (L.read_faults link.old) (L.read_faults link.new) }
    ensures never_falls { L.read_faults link.old ≤ L.read_faults link.new }
{
    'reads: loop {
        match find_head(&buffer[..(*end).min(MOST_HEAD)]) {
            HeadSearch::Whole(places) => return Ok(Some(places)),
            HeadSearch::Refused(reason) => return Err(WireFault::Refused(reason)),
            HeadSearch::Unfinished => match hear_more(link, buffer, *end) {
                Ok(Some(further)) => *end = further,
                Ok(None) => return Ok(None),
                Err(fault) => return Err(fault),
            },
        }
    }
}

/// Hears the body of a request whose head has been heard.
fn hear_body<L: Link>(
    link: &mut L,
    buffer: &mut [u8],
    end: &mut usize,
    places: RequestPlaces,
) -> Result<Option<RequestPlaces>, WireFault>
    requires size { length buffer.old ≡ 24576 }
    requires full { end.old ≤ 24576 }
    requires head { HasWholeHead (take end.old buffer.old) places }
    ensures size { length buffer.new ≡ 24576 }
    ensures full { end.new ≤ 24576 }
    ensures heard { HearsAt HasWholeRequest (take end.old buffer.old) (L.left link.old)
        (take end.new buffer.new) (L.left link.new) result }
    ensures output_kept { L.content link.new ≡ L.content link.old }
    ensures writes_kept { L.write_faults link.new ≡ L.write_faults link.old }
    ensures same_references { L.references link.new ≡ L.references link.old }
    ensures counts { Counts result (L.read_faults link.old) (L.read_faults link.new) }
    ensures never_falls { L.read_faults link.old ≤ L.read_faults link.new }
{
    'reads: while *end < places.body.end {
        match read_more(link, buffer, *end) {
            Err(Failed) => return Err(WireFault::ReadFault),
            Ok(0) => return Err(WireFault::Refused(Refusal::BodyCut)),
            Ok(n) => *end += n,
        }
    }
    Ok(Some(places))
}

/// Hears a request, and returns its places. None is the end of an input without a request.
fn hear_request<L: Link>(
    link: &mut L,
    buffer: &mut [u8],
    end: &mut usize,
) -> Result<Option<RequestPlaces>, WireFault>
    requires size { length buffer.old ≡ 24576 }
    requires full { end.old ≤ 24576 }
    ensures size { length buffer.new ≡ 24576 }
    ensures full { end.new ≤ 24576 }
    ensures heard { HearsAt HasWholeRequest (take end.old buffer.old) (L.left link.old)
        (take end.new buffer.new) (L.left link.new) result }
    ensures output_kept { L.content link.new ≡ L.content link.old }
    ensures writes_kept { L.write_faults link.new ≡ L.write_faults link.old }
    ensures same_references { L.references link.new ≡ L.references link.old }
    ensures counts { Counts result (L.read_faults link.old) (L.read_faults link.new) }
    ensures never_falls { L.read_faults link.old ≤ L.read_faults link.new }
{
    match hear_head(link, buffer, end) {
        Ok(Some(places)) => hear_body(link, buffer, end, places),
        Ok(None) => Ok(None),
        Err(fault) => Err(fault),
    }
}

/// Moves what was heard at `start..end` to the front of the buffer, if there is no room for a whole request behind
/// `start`.
fn make_room(buffer: &mut [u8], start: &mut usize, end: &mut usize)
    requires size { length buffer.old ≡ 49152 }
    requires ordered { start.old ≤ end.old }
    requires full { end.old ≤ start.old + 24576 }
    requires inside { end.old ≤ 49152 }
    ensures size { length buffer.new ≡ 49152 }
    ensures room { start.new ≤ 24576 }
    ensures ordered { start.new ≤ end.new }
    ensures full { end.new ≤ start.new + 24576 }
    ensures kept { slice_range buffer.new start.new end.new ≡ slice_range buffer.old start.old end.old }
{
    if *start > MOST_REQUEST {
        buffer.copy_within(*start..*end, 0);
        *end -= *start;
        *start = 0;
    }
}

/// Hears a request of which `start..end` of the buffer has been heard, and returns its places from `start` on. None
/// is the end of an input without a request.
pub fn hear_in<L: Link>(
    link: &mut L,
    buffer: &mut [u8],
    start: &mut usize,
    end: &mut usize,
) -> Result<Option<RequestPlaces>, WireFault>
    requires size { length buffer.old ≡ 49152 }
    requires ordered { start.old ≤ end.old }
    requires full { end.old ≤ start.old + 24576 }
    requires inside { end.old ≤ 49152 }
    ensures size { length buffer.new ≡ 49152 }
    ensures room { start.new ≤ 24576 }
    ensures ordered { start.new ≤ end.new }
    ensures full { end.new ≤ start.new + 24576 }
    ensures heard { HearsAt HasWholeRequest (slice_range buffer.old start.old end.old) (L.left link.old)
        (slice_range buffer.new start.new end.new) (L.left link.new) result }
    ensures output_kept { L.content link.new ≡ L.content link.old }
    ensures writes_kept { L.write_faults link.new ≡ L.write_faults link.old }
    ensures same_references { L.references link.new ≡ L.references link.old }
    ensures counts { Counts result (L.read_faults link.old) (L.read_faults link.new) }
    ensures never_falls { L.read_faults link.old ≤ L.read_faults link.new }
{
    make_room(buffer, start, end);
    let mut heard = *end - *start;
    let result = hear_request(link, &mut buffer[*start..*start + MOST_REQUEST], &mut heard);
    *end = *start + heard;
    result
}
