// An input that never fails.
ghost use Rattle.std.specs.Prelude.{◌≡◌, min, [], length, take, drop, Some, Ok, IfOk};

use crate::{Failed, Source};
use std::marker::Model;

/// An input in memory, which exposes what it still has and never fails.
#[derive(Drop)]
pub struct SureSource {
    input: Vec<u8>,
    at: usize,
}

impl Model for SureSource {
    ghost use Rattle.std.specs.Prelude.{◌≤◌, ℕ, List, vec_len, drop};

    ghost Value = { List ℕ };

    ghost view = { λ source. drop source.at source.input.items };

    ghost invariant = { λ source. source.at ≤ vec_len source.input };
}

impl SureSource {
    /// An input that has these bytes.
    pub fn new(input: Vec<u8>) -> SureSource
        ensures { result ≡ input.items }
    {
        SureSource { input, at: 0 }
    }
}

impl Source for SureSource {
    ghost left = { λ input. Some input };

    ghost faults = { λ _. 0 };

    /// Moves as much as fits. The rest of the buffer stays as it is.
    fn read(&mut self, buf: &mut [u8]) -> Result<usize, Failed>
        ensures moves { result ≡ Ok (min (length buf.old) (length self.old)) }
        ensures bytes { IfOk result (λ n. take n buf.new ≡ take n self.old) }
        ensures beyond { IfOk result (λ n. drop n buf.new ≡ drop n buf.old) }
        ensures length { length buf.new ≡ length buf.old }
        ensures rest { IfOk result (λ n. self.new ≡ drop n self.old) }
    {
        let moved = buf.len().min(self.input.len() - self.at);
        buf[..moved].copy_from_slice(&self.input[self.at..self.at + moved]);
        self.at += moved;
        Ok(moved)
    }
}
