// Heads of requests in the bytes that were heard.
ghost use Rattle.std.specs.Prelude.{◌≤◌, length};
ghost use Rattle.http_wire.specs.Requests.{most_head};
ghost use Rattle.http_wire.specs.Places.{Finds};

use crate::Refusal;
use crate::framing::framing_of;
use crate::limits::MOST_FIELDS;
use httparse::spans::{EMPTY_HEADER_SPAN, Span, parse_request};
use httparse::{Error, Status};

/// Where the parts of a request are in the bytes that were heard.
#[derive(Clone, Copy, Debug)]
pub struct RequestPlaces {
    pub method: Span,
    pub target: Span,

    /// It begins where the head ends, and the request ends where it ends.
    pub body: Span,

    /// Whether no other request follows on the connection.
    pub last: bool,
}

/// What a search for a head finds.
#[derive(Clone, Copy, Debug)]
pub enum HeadSearch {
    /// A whole head is there, which states a body within the limit.
    Whole(RequestPlaces),

    /// No head is whole yet.
    Unfinished,

    /// The head is refused, whatever follows.
    Refused(Refusal),
}

/// Searches the bytes for a head, and for what it says of the body.
pub fn find_head(heard: &[u8]) -> HeadSearch
    requires short { length heard.now ≤ most_head }
    ensures finds { Finds heard.now result }
{
    let mut headers = [EMPTY_HEADER_SPAN; MOST_FIELDS];
    let spans = match parse_request(heard, &mut headers) {
        Ok(Status::Complete(spans)) => spans,
        Ok(Status::Partial) => return HeadSearch::Unfinished,
        Err(Error::TooManyHeaders) => return HeadSearch::Refused(Refusal::HeadTooLong),
        Err(_) => return HeadSearch::Refused(Refusal::BadHead),
    };
    match framing_of(heard, &headers[..spans.headers], spans.version) {
        Ok(framing) => HeadSearch::Whole(RequestPlaces {
            method: spans.method,
            target: spans.path,
            body: Span {
                start: spans.len,
                end: spans.len + framing.length,
            },
            last: framing.last,
        }),
        Err(reason) => HeadSearch::Refused(reason),
    }
}
