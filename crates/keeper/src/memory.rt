//! A keeper in memory that never fails.

ghost use Rattle.std.specs.Prelude.{◌≡◌, []};

use crate::keeper::{KeepFault, Keeper};
use crate::row::KeptRow;
use crate::rows::Rows;
use std::alloc::Global;
use std::marker::Model;

/// A keeper in memory, which exposes its tables and never fails.
#[derive(Drop)]
pub struct MemoryKeeper {
    rows: Rows,
}

impl Model for MemoryKeeper {
    ghost use Rattle.std.specs.Prelude.{List};
    ghost use Rattle.keeper.specs.declared.row.KeptRow.{KeptRow};

    ghost Value = { List KeptRow };

    ghost view = { λ k. k.rows };
}

impl MemoryKeeper {
    /// A keeper without rows.
    pub fn new(alloc: Global) -> MemoryKeeper
        ensures empty { result ≡ [] }
        ensures no_faults { ⟦<MemoryKeeper as Keeper>⟧.faults result ≡ 0 }
    {
        MemoryKeeper {
            rows: Rows::new(alloc),
        }
    }
}

impl Keeper for MemoryKeeper {
    ghost use Rattle.std.specs.Prelude.{Some};
    ghost use Rattle.keeper.specs.Tables.{bytes_under};

    ghost tables = { λ rows. Some (bytes_under rows) };

    ghost faults = { λ _. 0 };

    fn load(&mut self, alloc: Global) -> Result<Vec<KeptRow>, KeepFault> {
        Ok(self.rows.copied(alloc)?)
    }

    fn commit(&mut self, alloc: Global, row: &KeptRow) -> Result<(), KeepFault> {
        self.rows.put(row.clone()?)?;
        Ok(())
    }
}
