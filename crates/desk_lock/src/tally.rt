//! The least machine, for tests, examples and measurements.

ghost use Rattle.std.specs.Prelude.{◌≤◌, ◌<◌, ◌+◌, ◌^◌, vec_len, vec_capacity};

use crate::machine::Machine;
use std::alloc::{AllocError, Global};

/// What a tally keeps of a turn: who asked for what.
#[derive(Clone, Copy, Debug, PartialEq, Eq)]
pub struct TallyEntry {
    pub desk: u32,
    pub request: u64,
}

/// A machine that keeps each request, and answers how many it keeps then.
#[derive(Drop)]
pub struct Tally {
    entries: Vec<TallyEntry>,
    room: u64,
    ghost reserved: { vec_len entries + room ≤ vec_capacity entries },
    ghost few: { room < 2 ^ 63 },
}

impl Tally {
    ghost use Rattle.std.specs.Prelude.{◌≡◌, [], IfOk};
    ghost use Rattle.desk_lock.specs.Tallies.{entries, room};

    /// A tally with no entry yet, and with memory for so many.
    pub fn with_room(alloc: Global, count: u32) -> Result<Tally, AllocError>
        ensures empty { IfOk result (λ t. entries t ≡ []) }
        ensures room { IfOk result (λ t. room t ≡ count) }
    {
        let entries = Vec::with_capacity(alloc, count as usize)?;
        Ok(Tally {
            entries,
            room: count as u64,
        })
    }

    /// All entries, in order.
    pub fn into_entries(self) -> Vec<TallyEntry>
        ensures { result.items ≡ entries self }
    {
        self.entries
    }
}

impl Machine for Tally {
    ghost use Rattle.desk_lock.specs.Tallies.{entries, room, IsCounted, IsLater, is_later_itself, is_later_on};

    type Request = u64;

    type Reply = usize;

    type Entry = TallyEntry;

    type Setting = ();

    ghost setting = { λ _. tt };

    ghost follows = { IsLater };

    ghost history = { entries };

    ghost spare = { room };

    ghost desk_of = { λ entry. entry.desk };

    ghost lawful = { λ _. Unit {0} };

    ghost fits = { IsCounted };

    ghost few = { λ t. t.few };

    ghost follows_itself = { is_later_itself };

    ghost follows_on = { is_later_on };

    fn turn(&mut self, _alloc: Global, desk: u32, request: u64) -> usize {
        self.room -= 1;
        self.entries.push_reserved(TallyEntry { desk, request });
        self.entries.len()
    }
}
