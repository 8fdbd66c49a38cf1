//! Where a run keeps its rows.

use keeper::{KeepFault, Keeper, KeptRow, MemoryKeeper};
use std::alloc::Global;

/// Keeps the rows of a run. What it exposes, and which of its calls fail, is what its keeper does.
#[derive(Drop)]
pub enum RowStore<F: Keeper + Drop> {
    /// In a file, by a keeper of it.
    InFile(F),
    /// In memory.
    InMemory(MemoryKeeper),
}

impl<F: Keeper + Drop> Keeper for RowStore<F> {
    ghost use Rattle.loadctl.specs.Stores.{tables_in, faults_in};

    ghost tables = { tables_in F.tables };

    ghost faults = { faults_in F.faults };

    fn load(&mut self, alloc: Global) -> Result<Vec<KeptRow>, KeepFault> {
        match self {
            RowStore::InFile(file) => file.load(alloc),
            RowStore::InMemory(memory) => memory.load(alloc),
        }
    }

    fn commit(&mut self, alloc: Global, row: &KeptRow) -> Result<(), KeepFault> {
        match self {
            RowStore::InFile(file) => file.commit(alloc, row),
            RowStore::InMemory(memory) => memory.commit(alloc, row),
        }
    }
}
