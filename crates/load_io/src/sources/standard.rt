// The standard input.
ghost use Rattle.std.specs.Prelude.{◌≡◌, None};

use crate::{Failed, Source};
use std::io::{Input, Read};

/// The standard input of the program. Its contents are hidden. It counts its failures up to the last value of
/// the counter.
#[derive(Drop)]
pub struct StdSource<Rt: Input> {
    rt: Rt,
    faults: u64,
}

impl<Rt: Input> StdSource<Rt> {
    /// The input of this runtime. No failure has been counted yet.
    pub fn new(rt: Rt) -> StdSource<Rt>
        ensures hidden { ⟦<StdSource<Rt> as Source>⟧.left result ≡ None }
        ensures no_faults { ⟦<StdSource<Rt> as Source>⟧.faults result ≡ 0 }
    {
        StdSource { rt, faults: 0 }
    }
}

impl<Rt: Input> Source for StdSource<Rt> {
    ghost left = { λ _. None };

    ghost faults = { λ input. input.faults };

    fn read(&mut self, buf: &mut [u8]) -> Result<usize, Failed> {
        match self.rt.reader().read(buf) {
            Ok(moved) => Ok(moved),
            Err(_) => {
                self.faults = self.faults.saturating_add(1);
                Err(Failed)
            }
        }
    }
}
