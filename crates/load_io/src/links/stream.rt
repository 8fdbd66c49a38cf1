// A connection of the system's network.
ghost use Rattle.std.specs.Prelude.{◌≡◌, None};

use crate::{Failed, Link};
use std::io::{Read, Write};

/// A connection over TCP. Its contents are hidden. It counts its failures up to the last value of each counter.
#[derive(Drop)]
pub struct TcpLink<S: Read + Write + Drop> {
    stream: S,
    read_faults: u64,
    write_faults: u64,
}

impl<S: Read + Write + Drop> TcpLink<S> {
    /// The connection as a link. No failure has been counted yet.
    pub(crate) fn new(stream: S) -> TcpLink<S>
        ensures hidden { ⟦<TcpLink<S> as Link>⟧.left result ≡ None }
    {
        TcpLink {
            stream,
            read_faults: 0,
            write_faults: 0,
        }
    }
}

impl<S: Read + Write + Drop> Link for TcpLink<S> {
    ghost use Rattle.std.specs.Prelude.{[]};

    ghost left = { λ _. None };

    ghost content = { λ _. None };

    ghost read_faults = { λ link. link.read_faults };

    ghost write_faults = { λ link. link.write_faults };

    ghost references = { λ _. [] };

    fn read(&mut self, buf: &mut [u8]) -> Result<usize, Failed> {
        match self.stream.read(buf) {
            Ok(moved) => Ok(moved),
            Err(_) => {
                self.read_faults = self.read_faults.saturating_add(1);
                Err(Failed)
            }
        }
    }

    fn write(&mut self, piece: &[u8]) -> Result<usize, Failed> {
        match self.stream.write(piece) {
            Ok(taken) if taken > 0 || piece.is_empty() => Ok(taken),
            _ => {
                self.write_faults = self.write_faults.saturating_add(1);
                Err(Failed)
            }
        }
    }
}
