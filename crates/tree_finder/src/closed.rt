//! Why a choice is not looked at any further.

use base_words::NoMemory;
use finder_tables::Path;

/// Why a choice is not looked at any further.
#[derive(Drop)]
pub enum Closed {
    /// No path among it has its hold index among the ticks, by the operations that were noted.
    Refuted,
    /// This path has.
    Found(Path),
    /// Neither shows.
    Stuck,
    /// There is no memory for what is noted of it.
    NoMemory,
}

impl From<NoMemory> for Closed {
    fn from(_: NoMemory) -> Closed {
        Closed::NoMemory
    }
}
