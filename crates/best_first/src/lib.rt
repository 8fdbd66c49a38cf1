//! The search for the best path of a task, best first, by bounds of any kind.
#![tactic(auto)]

mod children;
mod explorer;
mod horizon;
mod searching;

pub use horizon::Horizon;
pub use path_search::{Found, Look};
pub use searching::search;
