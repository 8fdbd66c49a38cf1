//! The search for the best placement of a task.
#![tactic(auto)]

mod answer;
mod answer_text;
mod near;
mod reach;

pub use answer::{Answer, Direct, Placing, place};
pub use answer_text::{write_answer, write_budget};
