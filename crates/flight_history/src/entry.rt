//! What the office writes down of each request.

ghost use Rattle.std.specs.Prelude.{◌≡◌};

use crate::request::{FigurePart, What};
use arrayvec::ArrayVec;
use flight_state::{FlightKey, Leg, Lmc};
use hold_limits::Path;

/// What a request asked, without its key.
#[derive(Debug, Drop)]
pub enum Act {
    NewFlight {
        leg: Leg,
    },
    Set {
        edition: u32,
        part: FigurePart,
    },
    Take {
        edition: u32,
    },
    Install {
        edition: u32,
        /// The path of the plan.
        path: Path,
        /// Whether the plan's task was the task of the flight's effective figures.
        same: bool,
    },
    Release {
        edition: u32,
    },
    Late {
        edition: u32,
        lmc: Lmc,
    },
    Reopen {
        edition: u32,
    },
    Depart {
        edition: u32,
    },
    Show {
        what: What,
    },
}

/// How a turn ended.
#[derive(Clone, Copy, Debug, PartialEq, Eq)]
pub enum Outcome {
    /// It was answered: refused, or done and kept.
    Done,
    /// The keeper failed, so nothing was changed.
    KeeperFailed,
    /// Memory ran out, so nothing was changed.
    NoMemory,
}

/// A line of the history: which desk asked what of which flight, and how the turn ended.
#[derive(Debug, Drop)]
pub struct Entry {
    pub desk: u32,
    pub key: FlightKey,
    pub act: Act,
    pub outcome: Outcome,
}

/// The same path.
pub fn copy_of(path: &Path) -> Path
    ensures { result.items ≡ path.now.items }
{
    match ArrayVec::try_from(path.as_slice()) {
        Ok(copy) => copy,
        Err(_) => unreachable!(),
    }
}
