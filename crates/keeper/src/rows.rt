//! Rows in memory, in the order of their keys.

ghost use Rattle.std.specs.Prelude.{◌≡◌, [], IfOk, OnOk, OnErr};
ghost use Rattle.keeper.specs.Rows.{with_row, IsPlaceOf};
ghost use Rattle.keeper.specs.Tables.{AreInKeyOrder};

use crate::row::KeptRow;
use base_words::NoMemory;
use std::alloc::Global;
use std::marker::Model;

/// Rows, one under each key, in the order of their keys.
#[derive(Drop)]
pub struct Rows {
    list: Vec<KeptRow>,
}

impl Model for Rows {
    ghost use Rattle.std.specs.Prelude.{List};
    ghost use Rattle.keeper.specs.declared.row.KeptRow.{KeptRow};
    ghost use Rattle.keeper.specs.Tables.{AreInKeyOrder};

    ghost Value = { List KeptRow };

    ghost view = { λ r. r.list.items };

    ghost invariant = { λ r. AreInKeyOrder r.list.items };
}

impl Rows {
    /// No rows.
    pub fn new(alloc: Global) -> Rows
        ensures { result ≡ [] }
    {
        Rows {
            list: Vec::new(alloc),
        }
    }

    /// The same rows, in memory of their own.
    pub fn copied(&self, alloc: Global) -> Result<Vec<KeptRow>, NoMemory>
        ensures copies { IfOk result (λ copies. copies.items ≡ self.now) }
        ensures rising { AreInKeyOrder self.now }
    {
        Ok(self.list.as_slice().to_vec(alloc)?)
    }

    /// Adds the row, or replaces the one under its key.
    pub fn put(&mut self, row: KeptRow) -> Result<(), NoMemory>
        ensures put { OnOk result (self.new ≡ with_row row self.old) }
        ensures same { OnErr result (self.new ≡ self.old) }
    {
        match self.place_of(row.key.as_slice()) {
            Ok(at) => self.list[at] = row,
            Err(at) => self.list.insert(at, row)?,
        }
        Ok(())
    }

    /// The place of the row under the key, or else the place where one would stand.
    fn place_of(&self, key: &[u8]) -> Result<usize, usize>
        ensures rising { AreInKeyOrder self.now }
        ensures place { IsPlaceOf key.now self.now result }
    {
        self.list
            .as_slice()
            .binary_search_by(|row| row.key.as_slice().cmp(key))
    }
}
