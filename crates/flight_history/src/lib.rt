//! The history of an office: what its desks asked of its flights, and what follows from it.
//!
//! The office writes down one entry for each request, in the order of their turns. What it answers, which flights there
//! are, how each of them stands, and which rows are kept follows from the flights that it opened with and from that
//! history alone. The definitions say how: an entry is accepted where it is done and no reason speaks against it, and
//! each part of a flight's standing is read from the acts that were accepted.
#![tactic(auto)]

mod entry;
mod laws;
mod opening;
mod plain;
mod reply;
mod request;

pub use entry::{Act, Entry, Outcome, copy_of};
pub use laws::{history_laws, judgement_laws, release_law, standing_laws};
pub use opening::new_flight;
pub use plain::standing_after;
pub use reply::{Refusal, Reply};
pub use request::{FigurePart, Request, What, replaced};
