//! What keeps the rows of flights.

ghost use Rattle.std.specs.Prelude.{◌≡◌, ◌≢◌, ℕ, ◌≤◌, Option, Err, IfOk, OnOk, OnErr};
ghost use Rattle.base_words.specs.Faults.{Rose};
ghost use Rattle.keeper.specs.Tables.{Tables, AreAllRows, AreInKeyOrder, HoldsAfter};

use crate::row::KeptRow;
use base_words::NoMemory;
use std::alloc::{AllocError, Global};
use thiserror::Error;

/// Why a keeper did not do what it was asked. Its tables are as before.
#[derive(Clone, Copy, Debug, PartialEq, Eq, Error)]
pub enum KeepFault {
    /// The keeper failed, and has counted it.
    #[error("the keeper failed")]
    Failed,
    /// Out of memory.
    #[error("out of memory")]
    NoMemory,
}

impl From<NoMemory> for KeepFault {
    ghost use Rattle.std.specs.Prelude.{◌≡◌};
    ghost use Rattle.keeper.specs.declared.keeper.KeepFault.TheVariants.{NoMemory as out_of_memory};

    ghost from_gives = { λ _ fault. fault ≡ out_of_memory };

    fn from(_: NoMemory) -> KeepFault {
        KeepFault::NoMemory
    }
}

impl From<AllocError> for KeepFault {
    ghost use Rattle.std.specs.Prelude.{◌≡◌};
    ghost use Rattle.keeper.specs.declared.keeper.KeepFault.TheVariants.{NoMemory as out_of_memory};

    ghost from_gives = { λ _ fault. fault ≡ out_of_memory };

    fn from(_: AllocError) -> KeepFault {
        KeepFault::NoMemory
    }
}

/// Keeps rows, one under each key.
pub trait Keeper {
    // The bytes under each key, unless the keeper keeps them hidden.
    ghost tables: { Self → Option Tables };

    // How many calls have failed.
    ghost faults: { Self → ℕ };

    /// All rows, in the order of their keys.
    fn load(&mut self, alloc: Global) -> Result<Vec<KeptRow>, KeepFault>
        ensures all { IfOk result (λ rows. AreAllRows (tables self.old) rows.items) }
        ensures rising { IfOk result (λ rows. AreInKeyOrder rows.items) }
        ensures same { tables self.new ≡ tables self.old }

        // Only a failure raises the count.
        ensures never_falls { faults self.old ≤ faults self.new }
        ensures uncounted { result ≢ Err KeepFault.Failed → faults self.new ≡ faults self.old }
        ensures counted { result ≡ Err KeepFault.Failed → Rose (faults self.old) (faults self.new) };

    /// Adds the row, or replaces the one under its key.
    fn commit(&mut self, alloc: Global, row: &KeptRow) -> Result<(), KeepFault>
        ensures kept { OnOk result (HoldsAfter (tables self.old) (tables self.new) row.now) }
        ensures same { OnErr result (tables self.new ≡ tables self.old) }

        // Only a failure raises the count.
        ensures never_falls { faults self.old ≤ faults self.new }
        ensures uncounted { result ≢ Err KeepFault.Failed → faults self.new ≡ faults self.old }
        ensures counted { result ≡ Err KeepFault.Failed → Rose (faults self.old) (faults self.new) };
}
