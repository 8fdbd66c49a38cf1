// An input in memory.
ghost use Rattle.std.specs.Prelude.{◌≡◌, ◌↔◌, ◌≤◌, ◌<◌, [], length, take, drop, Some, Ok, IsErr, IfOk, OnErr};
ghost use Rattle.load_io.specs.Calls.{IsToFail, no_calls, after_success, after_failure};
ghost use Rattle.load_io.specs.MemorySource.{moved_into};

use crate::calls::CallLog;
use crate::{Failed, Source};
use std::marker::Model;

/// An input in memory, which exposes what it still has. A read moves a limited number of bytes, and reads fail
/// at the numbers of a list.
#[derive(Drop)]
pub struct MemorySource {
    input: Vec<u8>,
    at: usize,
    most: usize,
    calls: CallLog,
}

impl Model for MemorySource {
    ghost use Rattle.std.specs.Prelude.{◌≤◌, ◌<◌, vec_len, drop};
    ghost use Rattle.load_io.specs.MemorySource.{Input};

    ghost Value = { Input };

    ghost view = { λ source. record {
      left = drop source.at source.input.items;
      most = source.most;
      calls = source.calls;
    } };

    ghost invariant = { λ source. (source.at ≤ vec_len source.input) × (0 < source.most) };
}

impl MemorySource {
    /// An input that has these bytes. A read moves at most `most` of them. `fail` lists the numbers of the
    /// reads that are to fail, counted from 1.
    pub fn new(input: Vec<u8>, most: usize, fail: Vec<u64>) -> MemorySource
        requires some { 0 < most }
        ensures { result ≡ record { left = input.items; most = most; calls = no_calls fail.items } }
    {
        MemorySource {
            input,
            at: 0,
            most,
            calls: CallLog::new(fail),
        }
    }
}

impl Source for MemorySource {
    ghost left = { λ input. Some input.left };

    ghost faults = { λ input. input.calls.faults };

    /// Moves as much as fits and as one read may move. The rest of the buffer stays as it is.
    fn read(&mut self, buf: &mut [u8]) -> Result<usize, Failed>
        ensures fails { IsErr result ↔ IsToFail self.old.calls }
        ensures moves { IfOk result (λ n. n ≡ moved_into self.old (length buf.old)) }
        ensures bytes { IfOk result (λ n. take n buf.new ≡ take n self.old.left) }
        ensures beyond { IfOk result (λ n. drop n buf.new ≡ drop n buf.old) }
        ensures unread { OnErr result (buf.new ≡ buf.old) }
        ensures length { length buf.new ≡ length buf.old }
        ensures ended { result ≡ Ok 0 → 0 < length buf.old → self.old.left ≡ [] }
        ensures ok { IfOk result (λ n. self.new ≡ record self.old {
          left = drop n self.old.left;
          calls = after_success self.old.calls;
        }) }
        ensures err { OnErr result (self.new ≡ record self.old { calls = after_failure self.old.calls }) }
        ensures never_falls { self.old.calls.faults ≤ self.new.calls.faults }
    {
        if self.calls.next_call_fails() {
            self.calls.count_fault();
            return Err(Failed);
        }
        let moved = buf.len().min(self.most.min(self.input.len() - self.at));
        buf[..moved].copy_from_slice(&self.input[self.at..self.at + moved]);
        self.at += moved;
        Ok(moved)
    }
}
