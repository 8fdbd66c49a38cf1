//! Prices of containers and of positions.

use arrayvec::ArrayVec;

/// Prices for both ends of a span of hold indices, in ticks: of the containers that a prefix leaves, in branch order, and
/// of the positions of the hold.
#[derive(Clone, Debug, PartialEq, Eq, Drop)]
pub struct Prices {
    pub lower_items: ArrayVec<i64, 60>,
    pub lower_places: ArrayVec<i64, 64>,
    pub upper_items: ArrayVec<i64, 60>,
    pub upper_places: ArrayVec<i64, 64>,
}
