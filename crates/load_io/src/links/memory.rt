// A link in memory.
ghost use Rattle.std.specs.Prelude.{◌≡◌, ◌<◌, [], Some, IfOk};
ghost use Rattle.load_io.specs.Calls.{no_calls};

use crate::{Failed, Link, MemorySink, MemorySource, Sink, Source};
use base_words::NoMemory;
use std::alloc::Global;
use std::marker::Model;

/// A link in memory, which exposes both what can still be read and what was written. Its input is a
/// [`MemorySource`] and its output a [`MemorySink`].
#[derive(Drop)]
pub struct MemoryLink {
    input: MemorySource,
    output: MemorySink,
}

impl Model for MemoryLink {
    ghost use Rattle.load_io.specs.MemoryLink.{Directions};

    ghost Value = { Directions };

    ghost view = { λ link. record { input = link.input; output = link.output } };
}

impl MemoryLink {
    /// A link whose input has these bytes, of which a read moves at most `most`, and whose output has room for
    /// `room` bytes. `fail_reads` and `fail_writes` list the numbers of the reads and of the writes that are to
    /// fail, each counted from 1.
    pub fn new(
        alloc: Global,
        input: Vec<u8>,
        most: usize,
        room: usize,
        fail_reads: Vec<u64>,
        fail_writes: Vec<u64>,
    ) -> Result<MemoryLink, NoMemory>
        requires some { 0 < most }
        ensures { IfOk result (λ link. link ≡ record {
          input = record { left = input.items; most = most; calls = no_calls fail_reads.items };
          output = record { written = []; room = room; calls = no_calls fail_writes.items };
        }) }
    {
        Ok(MemoryLink {
            input: MemorySource::new(input, most, fail_reads),
            output: MemorySink::new(alloc, room, fail_writes)?,
        })
    }

    /// The bytes written, in order.
    pub fn written(&self) -> &[u8]
        ensures { result.now ≡ self.now.output.written }
    {
        self.output.written()
    }
}

impl Link for MemoryLink {
    ghost left = { λ link. Some link.input.left };

    ghost content = { λ link. Some link.output.written };

    ghost read_faults = { λ link. link.input.calls.faults };

    ghost write_faults = { λ link. link.output.calls.faults };

    ghost references = { λ _. [] };

    fn read(&mut self, buf: &mut [u8]) -> Result<usize, Failed> {
        self.input.read(buf)
    }

    fn write(&mut self, piece: &[u8]) -> Result<usize, Failed> {
        self.output.write(piece)
    }
}
