//! A placement of the first containers of a task, one more or one fewer at a time, which knows how far its hold
//! index and its lateral difference can still reach, and how near the ideal it can still come.
#![tactic(auto)]

mod ahead;
mod arrangement;
mod board;
mod closed;
mod demand;
mod level;
mod limit_table;
mod loads;
mod moves;
mod openness;
mod outlook;
mod partial;
mod position_table;
mod sides;
mod tables;

pub use hold_reach::{RuleBroken, reach_laws};
pub use moves::{advances, keep_first, move_to};
pub use openness::OpenSets;
pub use outlook::Outlook;
pub use partial::Partial;
