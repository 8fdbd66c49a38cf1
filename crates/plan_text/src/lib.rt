//! The text of a plan: which container goes where, the take-off index, how far it lies from the ideal, and the lateral
//! difference.
#![tactic(auto)]

mod plan;

pub use plan::{push_balance, push_place_lines, push_plan};
