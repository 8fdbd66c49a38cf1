//! Paths near others: by moves of containers to free positions and exchanges, towards the ticks, or towards keeping all
//! limits; and the paths that a look meets, from which others are tried. Nothing rests on whether one is found.
#![tactic(auto)]

mod aim;
mod four_moves;
mod mending;
mod met;
mod moves;
mod reaching;
mod two_moves;

pub use mending::mend;
pub use met::{Met, is_among};
pub use reaching::reach;
