//! A placement over all sectors of a load, which moves from prefix to prefix one container at a time.
#![tactic(auto)]

mod next;
mod partial;
mod sector;

pub use next::NextPositions;
pub use partial::StopPartial;
