//! What makes the objects of a run that its arguments name.

ghost use Rattle.std.specs.Prelude.{ℕ, List, Option, None, Some, IfOk};

use base_words::NoMemory;
use keeper::Keeper;
use load_io::Door;
use std::alloc::Global;

/// Makes the keeper and the doors of a run.
pub trait Objects {
    type Keeper: Keeper + Send + Drop;

    type Door: Door + Send + Drop;

    // The keeper keeps its rows in the file of this name, or in memory.
    ghost keeps: { Self.Keeper → Option (List ℕ) → Type 0 };

    // The door stands at this port.
    ghost stands_at: { Self.Door → ℕ → Type 0 };

    /// A keeper of rows in the file of this name.
    fn keeper_in_file(&self, alloc: Global, name: &str) -> Result<Self::Keeper, NoMemory>
        ensures { IfOk result (λ keeper. keeps keeper (Some name.now)) };

    /// A keeper of rows in memory.
    fn keeper_in_memory(&self, alloc: Global) -> Self::Keeper
        ensures { keeps result None };

    /// The door at this port.
    fn door(&self, alloc: Global, port: u16) -> Result<Self::Door, NoMemory>
        ensures { IfOk result (λ door. stands_at door port) };
}
