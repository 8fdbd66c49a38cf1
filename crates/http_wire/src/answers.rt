// Answers to requests.
ghost use Rattle.std.specs.Prelude.{◌≡◌, ◌+◌, ◌++◌, ◌≤◌, length, OnOk, OnErr, IsTrue};
ghost use Rattle.base_words.specs.Faults.{Rose};
ghost use Rattle.load_io.specs.Sink.{Appends, AppendsPart};
ghost use Rattle.http_wire.specs.Answer.{answer_bytes, closing_of, head_bytes, is_answered, phrase_of, type_of};

use arrayvec::ArrayVec;
use http::StatusCode;
use itoa::Buffer;
use load_io::{Failed, Link, send_all};

/// So many bytes of an answer are written at once. Only a longer body follows its head by itself.
const PIECE: usize = 4096;

/// Writes an answer. A JSON body is announced as `application/json`, another as `text/plain`. `last` announces that
/// the connection ends after this answer. If the link fails, a proper prefix of the answer was written, and nothing
/// more is.
pub fn answer<L: Link>(
    link: &mut L,
    status: u16,
    json: bool,
    last: bool,
    body: &[u8],
) -> Result<(), Failed>
    requires known { IsTrue (is_answered status) }
    ensures whole { OnOk result
        (Appends (L.content link.old) (L.content link.new) (answer_bytes status json last body.now)) }
    ensures part { OnErr result
        (AppendsPart (L.content link.old) (L.content link.new) (answer_bytes status json last body.now)) }
    ensures input_kept { L.left link.new ≡ L.left link.old }
    ensures reads_kept { L.read_faults link.new ≡ L.read_faults link.old }
    ensures same_references { L.references link.new ≡ L.references link.old }

    // Only a failure raises the count.
    ensures never_falls { L.write_faults link.old ≤ L.write_faults link.new }
    ensures uncounted { OnOk result (L.write_faults link.new ≡ L.write_faults link.old) }
    ensures counted { OnErr result (Rose (L.write_faults link.old) (L.write_faults link.new)) }
{
    let mut piece = head_of(status, json, last, body.len());
    match piece.try_extend_from_slice(body) {
        Ok(()) => send_all(link, piece.as_slice()),
        Err(_) => {
            send_all(link, piece.as_slice())?;
            send_all(link, body)
        }
    }
}

/// The head of an answer with a body of this length, in a piece that a short body fits into too.
fn head_of(status: u16, json: bool, last: bool, size: usize) -> ArrayVec<u8, PIECE>
    requires known { IsTrue (is_answered status) }
    ensures { result.items ≡ head_bytes status json last size }
{
    let mut head = ArrayVec::new();
    push(&mut head, b"HTTP/1.1 ");
    push(&mut head, Buffer::new().format(status).as_bytes());
    push(&mut head, b" ");
    push(&mut head, phrase_of(status).as_bytes());
    push(&mut head, b"\r\nContent-Type: ");
    push(&mut head, type_of(json));
    push(&mut head, b"\r\nContent-Length: ");
    push(&mut head, Buffer::new().format(size).as_bytes());
    push(&mut head, closing_of(last));
    push(&mut head, b"\r\n\r\n");
    head
}

/// Appends the text to a head that has room for it.
fn push(head: &mut ArrayVec<u8, PIECE>, text: &[u8])
    requires fits { length head.old.items + length text.now ≤ 4096 }
    ensures { head.new.items ≡ head.old.items ++ text.now }
{
    match head.try_extend_from_slice(text) {
        Ok(()) => {}
        Err(_) => unreachable!(),
    }
}

/// The phrase of a status.
fn phrase_of(status: u16) -> &'static str
    requires known { IsTrue (is_answered status) }
    ensures text { result.now ≡ phrase_of status }
    ensures short { length result.now ≤ 31 }
{
    match StatusCode::from_u16(status) {
        Ok(code) => code.canonical_reason().unwrap_or(""),
        Err(_) => "",
    }
}

/// The type of the body.
fn type_of(json: bool) -> &'static [u8]
    ensures text { result.now ≡ type_of json }
    ensures short { length result.now ≤ 16 }
{
    if json {
        b"application/json"
    } else {
        b"text/plain"
    }
}

/// The field that closes the connection, or nothing.
fn closing_of(last: bool) -> &'static [u8]
    ensures text { result.now ≡ closing_of last }
    ensures short { length result.now ≤ 19 }
{
    if last { b"\r\nConnection: close" } else { b"" }
}
