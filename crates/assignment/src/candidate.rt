//! Containers that are to get a position.

use position_set::PositionSet;

/// A container that is to get a position: its mass, in kilograms, and the positions that are open for it.
#[derive(Clone, Copy, Debug, Default)]
pub struct Candidate {
    pub mass: u32,
    pub open: PositionSet,
}
