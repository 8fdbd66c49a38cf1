// What the fields of a head say.
ghost use Rattle.std.specs.Prelude.{◌≡◌, ◌<◌, length, Some, None, All, IfSome, if◌then◌else◌};
ghost use Rattle.std.specs.Str.Parse.{digits_value};
ghost use Rattle.httparse.specs.Spans.{IsHeaderWithin, header_bytes};
ghost use Rattle.http_wire.specs.Fields.{is_named, is_close, is_coded, is_closing, is_length, body_length};
ghost use Rattle.http_wire.specs.Places.{fields_at};

use httparse::spans::HeaderSpan;

/// Whether the header has this name, in upper or lower case.
fn has_name(heard: &[u8], header: &HeaderSpan, name: &[u8]) -> bool
    requires within { IsHeaderWithin (length heard.now) header.now }
    ensures { result ≡ is_named name.now (header_bytes heard.now header.now) }
{
    header.name.of(heard).eq_ignore_ascii_case(name)
}

/// Whether the body has a transfer coding.
pub fn has_coding(heard: &[u8], headers: &[HeaderSpan]) -> bool
    requires within { All (IsHeaderWithin (length heard.now)) headers.now }
    ensures { result ≡ is_coded (fields_at heard.now headers.now) }
{
    for header in headers {
        if has_name(heard, header, b"transfer-encoding") {
            return true;
        }
    }
    false
}

/// Whether the header asks for the connection to be closed.
fn is_close(heard: &[u8], header: &HeaderSpan) -> bool
    requires within { IsHeaderWithin (length heard.now) header.now }
    ensures { result ≡ is_close (header_bytes heard.now header.now) }
{
    has_name(heard, header, b"connection") && header.value.of(heard).eq_ignore_ascii_case(b"close")
}

/// Whether a header asks for the connection to be closed.
pub fn is_closing(heard: &[u8], headers: &[HeaderSpan]) -> bool
    requires within { All (IsHeaderWithin (length heard.now)) headers.now }
    ensures { result ≡ is_closing (fields_at heard.now headers.now) }
{
    for header in headers {
        if is_close(heard, header) {
            return true;
        }
    }
    false
}

/// The length that 1 to 9 digits spell.
fn read_length(text: &[u8]) -> Option<usize>
    ensures spelled { result ≡ (if is_length text.now then Some (digits_value 10 text.now) else None) }
    ensures small { IfSome result (λ n. n < 1000000000) }
{
    if text.is_empty() || text.len() > 9 {
        return None;
    }
    let mut length = 0;
    for byte in text {
        if !byte.is_ascii_digit() {
            return None;
        }
        length = length * 10 + (*byte - b'0') as usize;
    }
    Some(length)
}

/// The length of the body, if the headers state one.
pub fn body_length(heard: &[u8], headers: &[HeaderSpan]) -> Option<usize>
    requires within { All (IsHeaderWithin (length heard.now)) headers.now }
    ensures { result ≡ body_length (fields_at heard.now headers.now) }
{
    let mut stated = None;
    for header in headers {
        if has_name(heard, header, b"content-length") {
            if stated.is_some() {
                return None;
            }
            stated = Some(read_length(header.value.of(heard))?);
        }
    }
    Some(stated.unwrap_or(0))
}
