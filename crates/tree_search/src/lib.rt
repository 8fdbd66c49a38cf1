//! The search for the best placement of a task by trees of prices.
#![tactic(auto)]

mod answer;
mod dive;
mod nearest;
mod used_prices;

pub use answer::{TreeAnswer, find_best};
