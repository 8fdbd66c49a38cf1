// The standard output, and outputs that are narrow, closed or stuck.
use load_io::{Failed, Sink, StdSink, write_all};
use std::cell::Cell;
use std::fmt::Display;
use std::io::{self, ErrorKind};

const TEXT: &[u8] = b"PLAN\nindex\n";

/// A runtime whose output takes the text, one byte at a time. Once it has taken as many as it has room for, it is closed, or
/// stuck: it takes nothing, as a full device may.
#[derive(Drop)]
struct Output {
    room: usize,
    is_stuck: bool,
    taken: Cell<usize>,
}

impl Output {
    fn new(room: usize, is_stuck: bool) -> Output {
        Output {
            room,
            is_stuck,
            taken: Cell::new(0),
        }
    }

    /// The byte of the text that is due next, where there is room for it.
    fn due(&self) -> Option<&u8> {
        if self.taken.get() == self.room {
            return None;
        }
        TEXT.get(self.taken.get())
    }
}

impl Print for Output {
    fn print<D: Display + Drop>(&self, _value: D) -> io::Result<()> {
        Ok(())
    }

    fn println<D: Display + Drop>(&self, _value: D) -> io::Result<()> {
        Ok(())
    }

    fn write_all(&self, _bytes: &[u8]) -> io::Result<()> {
        Ok(())
    }

    fn write_some(&self, bytes: &[u8]) -> io::Result<usize> {
        let Some(byte) = bytes.first() else {
            return Ok(0);
        };
        if self.due() == Some(byte) {
            self.taken.set(self.taken.get().saturating_add(1));
            return Ok(1);
        }
        if self.is_stuck {
            return Ok(0);
        }
        Err(io::Error::from(ErrorKind::BrokenPipe))
    }
}

/// How many bytes of the text come, where it is written whole, and where it is not.
fn sent(room: usize) -> Result<usize, usize> {
    let output = Output::new(room, false);
    match write_all(&mut StdSink::new(&output), TEXT) {
        Ok(()) => Ok(output.taken.get()),
        Err(Failed) => Err(output.taken.get()),
    }
}

#[test]
fn short_writes_are_continued(rt: HostRuntime) {
    assert_eq!(rt; sent(16), Ok(TEXT.len()));
}

#[test]
fn an_output_that_closes_has_a_proper_prefix(rt: HostRuntime) {
    for room in 0..TEXT.len() {
        assert_eq!(rt; sent(room), Err(room));
    }
}

#[test]
fn pieces_of_one_byte_are_written(rt: HostRuntime) {
    let output = Output::new(16, false);
    let mut out = StdSink::new(&output);
    for byte in TEXT {
        assert_eq!(rt; out.write(&[*byte]), Ok(1));
    }
    assert_eq!(rt; output.taken.get(), TEXT.len());
}

#[test]
fn the_standard_output_takes_bytes(rt: HostRuntime) {
    let mut out = StdSink::new(&rt);
    assert_eq!(rt; out.write(b"written\n"), Ok(8));
    assert_eq!(rt; out.write(b""), Ok(0));
}

#[test]
fn a_write_that_takes_nothing_fails(rt: HostRuntime) {
    let output = Output::new(0, true);
    let mut out = StdSink::new(&output);
    assert_eq!(rt; out.write(b""), Ok(0));
    assert_eq!(rt; out.write(b"P"), Err(Failed));
}

#[test]
fn each_write_to_a_closed_output_fails(rt: HostRuntime) {
    let output = Output::new(0, false);
    let mut out = StdSink::new(&output);
    for _ in 0..3 {
        assert_eq!(rt; out.write(b"P"), Err(Failed));
    }
}
