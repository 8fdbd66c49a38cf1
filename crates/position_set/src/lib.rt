//! Sets of positions in one machine word, and lists of such sets.
#![tactic(auto)]

mod set;

pub use set::PositionSet;
