// How the body of a request comes (RFC 9112, section 6).
ghost use Rattle.std.specs.Prelude.{length, All};
ghost use Rattle.httparse.specs.Spans.{IsHeaderWithin};
ghost use Rattle.http_wire.specs.Places.{Frames, fields_at};

use crate::Refusal;
use crate::fields::{body_length, has_coding, is_closing};
use crate::limits::MOST_BODY;
use httparse::spans::HeaderSpan;

/// How the body of a request comes.
#[derive(Clone, Copy, Debug)]
pub struct Framing {
    /// How many bytes it has.
    pub length: usize,

    /// Whether no other request follows on the connection.
    pub last: bool,
}

/// How the body of a request with these headers and this minor version comes, or the first reason why it is refused.
pub fn framing_of(heard: &[u8], headers: &[HeaderSpan], version: u8) -> Result<Framing, Refusal>
    requires within { All (IsHeaderWithin (length heard.now)) headers.now }
    ensures { Frames (fields_at heard.now headers.now) version result }
{
    if has_coding(heard, headers) {
        return Err(Refusal::TransferCoding);
    }
    let Some(length) = body_length(heard, headers) else {
        return Err(Refusal::BadLength);
    };
    if length > MOST_BODY {
        return Err(Refusal::BodyTooLong);
    }
    Ok(Framing {
        length,
        last: is_closing(heard, headers) || version == 0,
    })
}
