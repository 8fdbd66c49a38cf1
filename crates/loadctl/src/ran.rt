//! What a run leaves.

use flight_history::Entry;
use flight_state::FlightState;
use keeper::Keeper;

/// What a run leaves: its exit status, the keeper of the rows, the doors that it was given, and the flights that its
/// office opened with and the office's history, which are empty where no office was opened.
#[derive(Drop)]
pub struct Ran<K: Keeper, D> {
    pub status: u8,
    pub keeper: K,
    pub doors: Vec<D>,
    pub opening: Vec<FlightState>,
    pub history: Vec<Entry>,
}
