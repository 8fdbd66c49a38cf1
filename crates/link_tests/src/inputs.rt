// An input that gives one byte at a time, and breaks.
use load_io::{Failed, Source, StdSource};
use std::alloc::Allocator;
use std::cell::Cell;
use std::io::{self, BufRead, ErrorKind, Input, Lines, Read};

const TEXT: &[u8] = b"GET /flights";

/// A runtime whose input gives the text, one byte at a time, and breaks at the place `broken`.
#[derive(Drop)]
struct Narrow {
    at: Cell<usize>,
    broken: usize,
}

/// A reader of that input.
#[derive(Drop)]
struct NarrowReader<'a> {
    runtime: &'a Narrow,
}

impl Read for NarrowReader<'_> {
    fn read(&mut self, buf: &mut [u8]) -> io::Result<usize> {
        let at = self.runtime.at.get();
        if at == self.runtime.broken {
            return Err(io::Error::from(ErrorKind::BrokenPipe));
        }
        match (TEXT.get(at), buf.first_mut()) {
            (Some(byte), Some(slot)) => {
                *slot = *byte;
                self.runtime.at.set(at + 1);
                Ok(1)
            }
            _ => Ok(0),
        }
    }
}

impl BufRead for NarrowReader<'_> {
    fn fill_buf(&mut self) -> io::Result<&[u8]> {
        Ok(&[])
    }

    fn consume(&mut self, _amount: usize) {}
}

/// The runtime as a program has it.
#[derive(Drop)]
struct Handle<'a>(&'a Narrow);

impl<'a> Input for Handle<'a> {
    type Reader = NarrowReader<'a>;

    fn read_line<A: Allocator + Clone>(&self, _buf: &mut String<A>) -> io::Result<usize> {
        Ok(0)
    }

    fn lines<A: Allocator>(&self, alloc: A) -> Lines<NarrowReader<'a>, A> {
        self.reader().lines(alloc)
    }

    fn reader(&self) -> NarrowReader<'a> {
        NarrowReader { runtime: self.0 }
    }
}

/// How many bytes of the text are read, one after another, before a read gives something else, and the answer of that read.
fn heard(broken: usize) -> (usize, Result<usize, Failed>) {
    let narrow = Narrow {
        at: Cell::new(0),
        broken,
    };
    let mut input = StdSource::new(Handle(&narrow));
    let mut buf = [0; 16];
    for (at, due) in TEXT.iter().enumerate() {
        match input.read(&mut buf) {
            Ok(1) if buf.first() == Some(due) => {}
            answer => return (at, answer),
        }
    }
    (TEXT.len(), input.read(&mut buf))
}

#[test]
fn an_input_is_read_up_to_its_end_or_where_it_breaks(rt: HostRuntime) {
    for broken in 0..=TEXT.len() {
        assert_eq!(rt; heard(broken), (broken, Err(Failed)));
    }
    assert_eq!(rt; heard(TEXT.len() + 1), (TEXT.len(), Ok(0)));
}
