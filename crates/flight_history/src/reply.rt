//! What the office answers.

use flight_state::FlightKey;
use hold_limits::Task;
use keeper::Bytes;
use last_minute::{LmcFault, Sheet};
use trim::{Rules, TrimFault};

/// Why the office refuses a request, in the order in which the reasons are tested.
#[derive(Debug, Drop)]
pub enum Refusal {
    /// A flight of that key is there already.
    Exists,
    /// No aircraft of the fleet has the registration.
    NoAircraft,
    /// The office has as many flights as it may have.
    OfficeFull,
    /// No flight of that key is there.
    NoFlight,
    /// The flight has departed.
    Gone,
    /// The edition is older than the flight's, which is carried.
    Stale(u32),
    /// The edition is newer than the flight's, which is carried.
    Ahead(u32),
    /// The flight is not released.
    NotReleased,
    /// The flight has no plan.
    NoPlanYet,
    /// The flight breaks these rules.
    Broken(Rules),
    /// The late change is refused.
    Late(LmcFault),
    /// The figures make no task.
    Trim(TrimFault),
    /// The plan was made for other figures.
    OtherTask,
    /// There is no higher edition.
    Spent,
    /// The keeper failed, and has counted it.
    KeeperFault,
}

/// The answer to a request.
#[derive(Debug, Drop)]
pub enum Reply {
    /// The flight is open under this key.
    Opened(FlightKey),
    /// The edition of the flight after the request.
    Edition(u32),
    /// The row of the flight.
    Row(Bytes),
    /// The sheet of the flight.
    Sheet(Sheet),
    /// The loading task of the flight.
    Task(Task),
    Refused(Refusal),
    /// Out of memory.
    NoMemory,
}
