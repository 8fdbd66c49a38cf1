// An input and an output that make a link together.
ghost use Rattle.std.specs.Prelude.{◌≡◌, [], ◌∷◌};

use crate::{Failed, Link, Sink, Source};

/// A link that reads from an input and writes to an output.
#[derive(Drop)]
pub struct Joined<'a, S: Source, O: Sink> {
    pub input: &'a mut S,
    pub out: &'a mut O,
}

impl<'a, S: Source, O: Sink> Link for Joined<'a, S, O> {
    ghost left = { λ link. S.left link.input.now };

    ghost content = { λ link. O.content link.out.now };

    ghost read_faults = { λ link. S.faults link.input.now };

    ghost write_faults = { λ link. O.faults link.out.now };

    ghost references = { λ link. link.input.ghost_name ∷ link.out.ghost_name ∷ [] };

    fn read(&mut self, buf: &mut [u8]) -> Result<usize, Failed> {
        self.input.read(buf)
    }

    fn write(&mut self, piece: &[u8]) -> Result<usize, Failed> {
        self.out.write(piece)
    }
}
