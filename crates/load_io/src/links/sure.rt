// A link that never fails.
ghost use Rattle.std.specs.Prelude.{◌≡◌, [], None, Some};

use crate::{Failed, Link, Sink, Source, SureSink, SureSource};
use std::marker::Model;

/// A link that never fails. It exposes what can still be read, and discards what is written.
#[derive(Drop)]
pub struct SureLink {
    input: SureSource,
    output: SureSink,
}

impl Model for SureLink {
    ghost use Rattle.std.specs.Prelude.{ℕ, List};

    ghost Value = { List ℕ };

    ghost view = { λ link. link.input };
}

impl SureLink {
    /// A link whose input has these bytes.
    pub fn new(input: Vec<u8>) -> SureLink
        ensures { result ≡ input.items }
    {
        SureLink {
            input: SureSource::new(input),
            output: SureSink::new(),
        }
    }
}

impl Link for SureLink {
    ghost left = { λ link. Some link };

    ghost content = { λ _. None };

    ghost read_faults = { λ _. 0 };

    ghost write_faults = { λ _. 0 };

    ghost references = { λ _. [] };

    fn read(&mut self, buf: &mut [u8]) -> Result<usize, Failed> {
        self.input.read(buf)
    }

    fn write(&mut self, piece: &[u8]) -> Result<usize, Failed> {
        self.output.write(piece)
    }
}
