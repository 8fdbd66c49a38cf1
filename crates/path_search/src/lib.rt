//! The search for the best path, best first, through prefixes of any kind.
#![tactic(auto)]

mod explorer;
mod found;
mod paths;
mod queue;
mod searching;
mod turned;

pub use explorer::{Explorer, Look};
pub use found::Found;
pub use paths::longer;
pub use queue::{Queue, Waiting};
pub use searching::search;
