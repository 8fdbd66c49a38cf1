//! The office: flights under numbered editions, one history of all requests, and one kept row for each flight.
//!
//! Desks ask, and the office answers one request after another. Each request makes one entry in the history. A request
//! that changes a flight commits the flight's row to the keeper as its last step that can fail, so a turn that fails
//! leaves the flight and its row as they were. Every entry is reserved when the office starts: writing one down never
//! runs out of memory.
#![tactic(auto)]

mod acts;
mod answers;
mod asking;
mod documents;
mod flights;
mod office;
mod reasons;
mod settling;
mod starting;

pub use flight_history::{Act, Entry, FigurePart, Outcome, Refusal, Reply, Request, What};
pub use office::Office;
pub use starting::StartFault;
