//! Loads that are made from a number, for trials of the search.
#![tactic(auto)]

mod load;

pub use load::generated_task;
