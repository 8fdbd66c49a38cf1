// Requests and refusals, however the input is cut; links that break; answers, and how they break off.
use http_wire::{Heard, Refusal, Wire, WireFault, answer};
use load_io::MemoryLink;
use std::alloc::Global;
use std::str;
use std::test::Fail;

/// Requests that are heard. The rows end with a `#`, and have an input and what is heard of it: a line for each request, with
/// its method, its target, its body or its body's length, and whether it is a last one; then a line for the end. `<3 ab>`
/// stands for `ababab`.
const REQUESTS: &[u8] = b"\
|end#\
GET / HTTP/1.1\r\n\r\n|GET / \nend#\
GET / HTTP/1.1\n\n<3 \r\n>GET /a HTTP/1.1\n\r\n|GET / \nGET /a \nend#\
POST /a HTTP/1.1\r\ncontent-LENGTH: 000000003\r\n\r\nabcGET /b HTTP/1.1\r\n\r\n|POST /a abc\nGET /b \nend#\
PUT / HTTP/1.1\r\nContent-Length: 18\r\n\r\nGET / HTTP/1.1\r\n\r\n|PUT / GET / HTTP/1.1\r\n\r\n\nend#\
GET / HTTP/1.1\r\nConnection: CLOSE\r\n\r\nGET|GET / last\n#\
GET / HTTP/1.1\r\nconnection:close \r\n\r\n|GET / last\n#\
GET / HTTP/1.1\r\nConnection: keep-alive\r\nX: close\r\n\r\n|GET / \nend#\
GET / HTTP/1.0\r\n\r\nGET|GET / last\n#\
GET / HTTP/1.1\r\nX: <8169 a>\r\n\r\n|GET / \nend#\
GET / HTTP/1.1\r\n<64 X: a\r\n>\r\n|GET / \nend#\
PUT / HTTP/1.1\r\nContent-Length: 16384\r\n\r\n<16384 a>|PUT / 16384\nend#\
PUT / HTTP/1.1\r\nContent-Length: 0\r\n\r\n<2 GET / HTTP/1.1\r\n\r\n>|PUT / \nGET / \nGET / \nend";

/// Inputs that are refused, as above.
const REFUSALS: &[u8] = b"\
\r\n<2 \r\n>|{\"error\":\"head\"}#\
GET\r\n\r\n|{\"error\":\"head\"}#\
GET / HTTP/2.0\r\n\r\n|{\"error\":\"head\"}#\
GET / HTTP/1.1\r\nX y: a\r\n\r\n|{\"error\":\"head\"}#\
GET / HTTP/1.1\r\nX: a\r\n|{\"error\":\"head\"}#\
GET / HTTP/1.1\r\n\r\nGET / HT|GET / \n{\"error\":\"head\"}#\
GET / HTTP/1.1\r\nX: <8170 a>\r\n\r\n|{\"error\":\"head too long\"}#\
GET / HTTP/1.1\r\nX: <9000 a>|{\"error\":\"head too long\"}#\
GET / HTTP/1.1\r\n<65 X: a\r\n>\r\n|{\"error\":\"head too long\"}#\
GET / HTTP/1.1\r\n<66 X: a\r\n>|{\"error\":\"head too long\"}#\
PUT / HTTP/1.1\r\ntransfer-encoding: chunked\r\n\r\n0\r\n\r\n|{\"error\":\"transfer coding\"}#\
PUT / HTTP/1.1\r\nContent-Length: +5\r\nTransfer-Encoding: x\r\n\r\n|{\"error\":\"transfer coding\"}#\
PUT / HTTP/1.1\r\nContent-Length: 1\r\nContent-Length: 1\r\n\r\na|{\"error\":\"length\"}#\
PUT / HTTP/1.1\r\nContent-Length: +5\r\n\r\nabcde|{\"error\":\"length\"}#\
PUT / HTTP/1.1\r\nContent-Length: \r\n\r\n|{\"error\":\"length\"}#\
PUT / HTTP/1.1\r\nContent-Length: 5 5\r\n\r\nabcde|{\"error\":\"length\"}#\
PUT / HTTP/1.1\r\nContent-Length: 0000000005\r\n\r\nabcde|{\"error\":\"length\"}#\
PUT / HTTP/1.1\r\nContent-Length: 16385\r\n\r\n<16385 a>|{\"error\":\"too long\"}#\
PUT / HTTP/1.1\r\nContent-Length: 999999999\r\n\r\n|{\"error\":\"too long\"}#\
PUT / HTTP/1.1\r\nContent-Length: 10\r\n\r\nabc|{\"error\":\"cut\"}#\
PUT / HTTP/1.1\r\nContent-Length: 1\r\n\r\n|{\"error\":\"cut\"}#\
PUT / HTTP/1.1\r\nContent-Length: 16384\r\n\r\n<16383 a>|{\"error\":\"cut\"}#\
GET / HTTP/1.1\r\n\r\nPUT / HTTP/1.1\r\nContent-Length: 2\r\n\r\na|GET / \n{\"error\":\"cut\"}";

/// A request of a stream: its head, its body, and what is heard of it.
type Part = (&'static str, &'static str, &'static str);

/// Three requests of a connection.
const STREAM: [Part; 3] = [
    (
        "POST /flights HTTP/1.1\r\nContent-Length: 16\r\n\r\n",
        "{\"flight\":\"XX1\"}",
        "POST /flights {\"flight\":\"XX1\"}\n",
    ),
    (
        "\r\nGET /flights/XX1-12 HTTP/1.1\nAccept: *\n\n",
        "",
        "GET /flights/XX1-12 \n",
    ),
    (
        "PUT /a HTTP/1.1\r\nContent-Length: 3\r\n\r\n",
        "abc",
        "PUT /a abc\n",
    ),
];

/// How many bytes a read gives.
const PIECES: [usize; 4] = [1, 7, 100, 40000];

/// Appends what was heard.
fn push_heard(text: &mut Vec<u8>, heard: Heard<'_>) -> Result<(), Fail> {
    text.extend_from_slice(heard.method)?;
    text.extend_from_slice(b" ")?;
    text.extend_from_slice(heard.target)?;
    text.extend_from_slice(b" ")?;
    if heard.body.len() < 100 {
        text.extend_from_slice(heard.body)?;
    } else {
        text.extend_from_slice(itoa::Buffer::new().format(heard.body.len()).as_bytes())?;
    }
    if heard.last {
        text.extend_from_slice(b"last")?;
    }
    text.extend_from_slice(b"\n")?;
    Ok(())
}

/// What is heard of an input whose reads give so many bytes, and of which a read may fail.
fn hear(
    alloc: Global,
    wire: &mut Wire,
    input: &[u8],
    most: usize,
    failing: u64,
) -> Result<Vec<u8>, Fail> {
    let mut link = MemoryLink::new(
        alloc,
        Vec::from_slice(alloc, input)?,
        most.max(1),
        0,
        vec![in alloc; failing]?,
        Vec::new(alloc),
    )?;
    let mut text = Vec::new(alloc);
    wire.restart();
    for _ in 0..100 {
        match wire.next(&mut link) {
            Ok(Some(heard)) => {
                let last = heard.last;
                push_heard(&mut text, heard)?;
                if last {
                    return Ok(text);
                }
            }
            Ok(None) => {
                text.extend_from_slice(b"end")?;
                return Ok(text);
            }
            Err(WireFault::Refused(reason)) => {
                text.extend_from_slice(reason.body())?;
                return Ok(text);
            }
            Err(WireFault::ReadFault) => {
                text.extend_from_slice(b"broken")?;
                return Ok(text);
            }
        }
    }
    Ok(text)
}

/// The number that the digits spell.
fn number_in(digits: &[u8]) -> Result<usize, Fail> {
    let text = str::from_utf8(digits).map_err(|_| Fail::new("digits"))?;
    text.parse().map_err(|_| Fail::new("a number"))
}

/// Appends a text, or in its place another so many times, as in `3 ab>`.
fn push_piece(input: &mut Vec<u8>, piece: &[u8]) -> Result<(), Fail> {
    let Some(end) = piece.iter().position(|byte| *byte == b'>') else {
        input.extend_from_slice(piece)?;
        return Ok(());
    };
    let (repeated, rest) = piece.split_at(end);
    let space = repeated
        .iter()
        .position(|byte| *byte == b' ')
        .ok_or("a space")?;
    let (digits, filler) = repeated.split_at(space);
    for _ in 0..number_in(digits)? {
        input.extend_from_slice(filler.get(1..).ok_or("a filler")?)?;
    }
    input.extend_from_slice(rest.get(1..).ok_or("a rest")?)?;
    Ok(())
}

/// The input of a row.
fn input_of(alloc: Global, row: &[u8]) -> Result<Vec<u8>, Fail> {
    let text = row.split(|byte| *byte == b'|').next().ok_or("an input")?;
    let mut input = Vec::new(alloc);
    for piece in text.split(|byte| *byte == b'<') {
        push_piece(&mut input, piece)?;
    }
    Ok(input)
}

/// Whether what is due is heard of the input of a row, at each length of the reads.
fn is_heard(alloc: Global, wire: &mut Wire, row: &[u8], pieces: &[usize]) -> Result<bool, Fail> {
    let input = input_of(alloc, row)?;
    let due = row
        .split(|byte| *byte == b'|')
        .nth(1)
        .ok_or("what is heard")?;
    for most in pieces {
        if hear(alloc, wire, &input, *most, 0)?.as_slice() != due {
            return Ok(false);
        }
    }
    Ok(true)
}

/// The place of the first row of which something else is heard.
fn first_wrong(alloc: Global, rows: &[u8]) -> Result<Option<usize>, Fail> {
    let mut wire = Wire::new(alloc)?;
    for (place, row) in rows.split(|byte| *byte == b'#').enumerate() {
        if !is_heard(alloc, &mut wire, row, &PIECES)? {
            return Ok(Some(place));
        }
    }
    Ok(None)
}

#[test]
fn an_input_says_the_same_however_it_is_cut(rt: HostRuntime) -> Result<(), Fail> {
    assert_eq!(rt; first_wrong(rt.alloc(), REQUESTS)?, None);
    assert_eq!(rt; first_wrong(rt.alloc(), REFUSALS)?, None);
    Ok(())
}

/// The bytes of a stream.
fn joined(alloc: Global, stream: &[Part]) -> Result<Vec<u8>, Fail> {
    let mut bytes = Vec::new(alloc);
    for (head, body, _) in stream {
        bytes.extend_from_slice(head.as_bytes())?;
        bytes.extend_from_slice(body.as_bytes())?;
    }
    Ok(bytes)
}

/// What is heard of the first so many bytes of a stream: the requests that are whole in them, and what is said between
/// requests, in a head, or in a body.
fn heard_of_prefix(
    alloc: Global,
    stream: &[Part],
    length: usize,
    said: [&'static str; 3],
) -> Result<Vec<u8>, Fail> {
    let [between, in_head, in_body] = said;
    let mut text = Vec::new(alloc);
    let mut left = length;
    for (head, body, line) in stream {
        if left < head.len() {
            text.extend_from_slice(if left == 0 { between } else { in_head }.as_bytes())?;
            return Ok(text);
        }
        left -= head.len();
        if left < body.len() {
            text.extend_from_slice(in_body.as_bytes())?;
            return Ok(text);
        }
        left -= body.len();
        text.extend_from_slice(line.as_bytes())?;
    }
    text.extend_from_slice(between.as_bytes())?;
    Ok(text)
}

/// The length of the first prefix of a stream of which something else is heard.
fn first_wrong_prefix(
    alloc: Global,
    stream: &[Part],
    pieces: &[usize],
) -> Result<Option<usize>, Fail> {
    let mut wire = Wire::new(alloc)?;
    let bytes = joined(alloc, stream)?;
    for length in 0..=bytes.len() {
        let said = ["end", "{\"error\":\"head\"}", "{\"error\":\"cut\"}"];
        let expected = heard_of_prefix(alloc, stream, length, said)?;
        for most in pieces {
            let text = hear(alloc, &mut wire, &bytes[..length], *most, 0)?;
            if text.as_slice() != expected.as_slice() {
                return Ok(Some(length));
            }
        }
    }
    Ok(None)
}

/// The number of the first read that fails and after which something else is heard. A read gives at most so many bytes.
fn first_wrong_break(alloc: Global, stream: &[Part], most: usize) -> Result<Option<u64>, Fail> {
    let mut wire = Wire::new(alloc)?;
    let bytes = joined(alloc, stream)?;
    let mut before = 0;
    for failing in 1..300u64 {
        // the input has ended before a read beyond the one that finds its end
        let is_read = before < bytes.len().saturating_add(most);
        let said = if is_read { ["broken"; 3] } else { ["end"; 3] };
        let expected = heard_of_prefix(alloc, stream, before.min(bytes.len()), said)?;
        let text = hear(alloc, &mut wire, &bytes, most, failing)?;
        if text.as_slice() != expected.as_slice() {
            return Ok(Some(failing));
        }
        before = before.saturating_add(most);
    }
    Ok(None)
}

#[test]
fn whole_requests_are_heard_before_an_end_or_a_break(rt: HostRuntime) -> Result<(), Fail> {
    assert_eq!(rt; first_wrong_prefix(rt.alloc(), &STREAM, &PIECES)?, None);
    assert_eq!(rt; first_wrong_break(rt.alloc(), &STREAM, 1)?, None);
    assert_eq!(rt; first_wrong_break(rt.alloc(), &STREAM, 7)?, None);
    assert_eq!(rt; first_wrong_break(rt.alloc(), &STREAM, 100)?, None);
    Ok(())
}

/// All refusals.
const REFUSED: [Refusal; 6] = [
    Refusal::BadHead,
    Refusal::HeadTooLong,
    Refusal::TransferCoding,
    Refusal::BadLength,
    Refusal::BodyTooLong,
    Refusal::BodyCut,
];

/// The answers to them, one after another.
const ANSWERED: &[u8] = b"\
HTTP/1.1 400 Bad Request\r\nContent-Type: application/json\r\nContent-Length: 16\r\nConnection: close\r\n\r\n{\"error\":\"head\"}\
HTTP/1.1 431 Request Header Fields Too Large\r\nContent-Type: application/json\r\nContent-Length: 25\r\nConnection: close\r\n\r\n{\"error\":\"head too long\"}\
HTTP/1.1 501 Not Implemented\r\nContent-Type: application/json\r\nContent-Length: 27\r\nConnection: close\r\n\r\n{\"error\":\"transfer coding\"}\
HTTP/1.1 400 Bad Request\r\nContent-Type: application/json\r\nContent-Length: 18\r\nConnection: close\r\n\r\n{\"error\":\"length\"}\
HTTP/1.1 413 Payload Too Large\r\nContent-Type: application/json\r\nContent-Length: 20\r\nConnection: close\r\n\r\n{\"error\":\"too long\"}\
HTTP/1.1 400 Bad Request\r\nContent-Type: application/json\r\nContent-Length: 15\r\nConnection: close\r\n\r\n{\"error\":\"cut\"}";

/// What all refusals are answered.
fn answers_to(alloc: Global, refusals: &[Refusal]) -> Result<Vec<u8>, Fail> {
    let (input, none) = (Vec::new(alloc), Vec::new(alloc));
    let mut link = MemoryLink::new(alloc, input, 1, 2000, none, Vec::new(alloc))?;
    for reason in refusals {
        let sent = answer(&mut link, reason.status(), true, true, reason.body());
        sent.map_err(|_| Fail::new("the link has room"))?;
    }
    Ok(link.written().to_vec(alloc)?)
}

#[test]
fn answers_have_what_they_are_given(rt: HostRuntime) -> Result<(), Fail> {
    let alloc = rt.alloc();
    assert_eq!(rt; answers_to(alloc, &REFUSED)?.as_slice(), ANSWERED);
    let mut link = MemoryLink::new(
        alloc,
        Vec::new(alloc),
        1,
        9000,
        Vec::new(alloc),
        Vec::new(alloc),
    )?;
    assert!(rt; answer(&mut link, 200, false, false, b"row\n").is_ok());
    assert!(rt; answer(&mut link, 507, true, true, b"").is_ok());
    let text = b"HTTP/1.1 200 OK\r\nContent-Type: text/plain\r\nContent-Length: 4\r\n\r\nrow\n\
HTTP/1.1 507 Insufficient Storage\r\nContent-Type: application/json\r\nContent-Length: 0\r\nConnection: close\r\n\r\n";
    assert_eq!(rt; link.written(), text.as_slice());
    Ok(())
}

#[test]
fn an_answer_breaks_off_where_the_link_does(rt: HostRuntime) -> Result<(), Fail> {
    let alloc = rt.alloc();
    let text =
        b"HTTP/1.1 404 Not Found\r\nContent-Type: text/plain\r\nContent-Length: 4\r\n\r\ngone";
    // the room of the output, the write that fails, and how much is written
    let rows = [
        (75, 9, 75),
        (74, 9, 74),
        (71, 9, 71),
        (5, 9, 5),
        (0, 9, 0),
        (500, 1, 0),
        (500, 2, 75),
    ];
    for (room, failing, length) in rows {
        let mut link = MemoryLink::new(
            alloc,
            Vec::new(alloc),
            1,
            room,
            Vec::new(alloc),
            vec![in alloc; failing]?,
        )?;
        let whole = answer(&mut link, 404, false, false, b"gone").is_ok();
        assert_eq!(rt; whole, length == text.len());
        assert_eq!(rt; link.written(), &text[..length]);
    }
    Ok(())
}

#[test]
fn a_long_body_follows_its_head(rt: HostRuntime) -> Result<(), Fail> {
    let alloc = rt.alloc();
    let body = vec![in alloc; b'x'; 5000]?;
    let head = b"HTTP/1.1 200 OK\r\nContent-Type: text/plain\r\nContent-Length: 5000\r\n\r\n";
    let mut link = MemoryLink::new(
        alloc,
        Vec::new(alloc),
        1,
        9000,
        Vec::new(alloc),
        vec![in alloc; 2]?,
    )?;
    assert!(rt; answer(&mut link, 200, false, false, body.as_slice()).is_err());
    assert_eq!(rt; link.written(), head.as_slice());
    Ok(())
}
