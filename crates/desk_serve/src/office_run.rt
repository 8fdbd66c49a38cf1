//! What a run over an office leaves.

ghost use Rattle.std.specs.Prelude.{◌≡◌, []};

use flight_history::Entry;
use flight_state::FlightState;
use std::alloc::Global;

/// What a run over an office leaves: how it ended, the keeper of the rows, what it was given to serve, and the flights
/// that the office opened with and its history, both empty where no office was opened.
#[derive(Drop)]
pub struct OfficeRun<E, K, D> {
    pub ending: E,
    pub keeper: K,
    /// The doors, or `()` where there are none.
    pub doors: D,
    pub opening: Vec<FlightState>,
    pub history: Vec<Entry>,
}

impl<E, K, D> OfficeRun<E, K, D> {
    /// What is left where no office was opened.
    pub fn unopened(alloc: Global, ending: E, keeper: K, doors: D) -> OfficeRun<E, K, D>
        ensures ending { result.ending ≡ ending }
        ensures keeper { result.keeper ≡ keeper }
        ensures doors { result.doors ≡ doors }
        ensures unopened { result.opening.items ≡ [] }
        ensures unasked { result.history.items ≡ [] }
    {
        OfficeRun {
            ending,
            keeper,
            doors,
            opening: Vec::new(alloc),
            history: Vec::new(alloc),
        }
    }
}
