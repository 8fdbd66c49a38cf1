//! Where a log ends, and whether anybody wrote behind it.
//!
//! A log of SQLite is a header of 32 bytes and frames of 24 bytes and a page. Whoever commits writes a frame where the last one
//! ended, with the two salts of the header in it; whoever begins the log anew writes another header. So a log whose header, length
//! and bytes behind the last frame are as they were has the same frames.

ghost use Rattle.std.specs.Prelude.{◌<◌};

use std::fs::File;
use std::io;
use std::os::unix::fs::FileExt;

const HEADER: u64 = 32;

const FRAME_HEADER: u64 = 24;

/// The header of a log, the place behind its last frame, and what stands there.
#[derive(Clone, Copy, Debug, PartialEq, Eq)]
pub(crate) struct LogEnd {
    header: [u8; 32],
    length: u64,
    at: u64,
    behind: [u8; 24],
}

impl LogEnd {
    /// The end of this log now. An end that it had earlier, if one is known, saves most of the way.
    pub(crate) fn of(log: &File, earlier: Option<LogEnd>) -> io::Result<LogEnd> {
        let header = header_of(log)?;
        let from = match earlier {
            Some(end) if end.has(&header) => end.at,
            _ => HEADER,
        };
        let length = log.metadata()?.len();
        LogEnd::at(log, header, behind_frames(log, &header, from, length)?)
    }

    /// Whether nobody has written to the log since.
    pub(crate) fn is_still_of(&self, log: &File) -> io::Result<bool> {
        let now = LogEnd::at(log, header_of(log)?, self.at)?;
        Ok(now == *self)
    }

    fn has(&self, header: &[u8; 32]) -> bool {
        self.header.as_slice() == header.as_slice()
    }

    fn at(log: &File, header: [u8; 32], at: u64) -> io::Result<LogEnd> {
        Ok(LogEnd {
            header,
            length: log.metadata()?.len(),
            at,
            behind: frame_header_at(log, at)?,
        })
    }
}

fn header_of(log: &File) -> io::Result<[u8; 32]> {
    let mut header = [0; 32];
    log.read_exact_at(&mut header, 0)?;
    Ok(header)
}

/// The first bytes that a frame at this place has, with zeros past the end of the file.
fn frame_header_at(log: &File, at: u64) -> io::Result<[u8; 24]> {
    let mut bytes = [0; 24];
    log.read_at(&mut bytes, at)?;
    Ok(bytes)
}

/// How many bytes a frame takes in a log with this header.
fn frame_length(header: &[u8; 32]) -> u64
    ensures { 0 < result }
{
    let page = u32::from_be_bytes([header[8], header[9], header[10], header[11]]);
    FRAME_HEADER + u64::from(page)
}

/// The place behind the frames that follow one another from this place on, in a log of this length.
fn behind_frames(log: &File, header: &[u8; 32], from: u64, length: u64) -> io::Result<u64> {
    let frame = frame_length(header);
    let mut at = from;
    for _ in 0..length / frame {
        if !has_frame(log, header, at)? {
            return Ok(at);
        }
        at = at.saturating_add(frame);
    }
    Ok(at)
}

/// Whether a frame of the log with this header is at this place: it has the header's salts.
fn has_frame(log: &File, header: &[u8; 32], at: u64) -> io::Result<bool> {
    let frame = frame_header_at(log, at)?;
    Ok(frame[8..16] == header[16..24])
}
