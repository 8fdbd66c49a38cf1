//! Hold indices that come with the positions of one container.

ghost use Rattle.std.specs.Prelude.{◌<◌};

use arrayvec::ArrayVec;
use finder_tables::{Load, each_of};
use position_set::PositionSet;

/// A position of a container, with the hold index where the container stands on it, and each other one on the first of its own.
#[derive(Clone, Copy, Debug)]
pub struct Spot {
    pub position: u8,
    pub index: i64,
    ghost within: { position < 64 },
}

impl Default for Spot {
    fn default() -> Spot {
        Spot {
            position: 0,
            index: 0,
        }
    }
}

/// The spots of one container.
pub type Spots = ArrayVec<Spot, 64>;

/// The hold index where each container stands on the first position of its set.
pub fn index_of_firsts(load: &Load, sets: &[PositionSet]) -> i64 {
    let mut index = load.loose;
    for (container, set) in load.containers.as_slice().iter().zip(sets) {
        let influence = load.influence(set.first().unwrap_or(0));
        index = index.saturating_add(container.mass.saturating_mul(influence));
    }
    index
}

/// The spots of the container at a rank, where this is the hold index with all containers on their first positions. Sums
/// saturate.
pub fn spots_of(load: &Load, rank: usize, set: PositionSet, index: i64) -> Spots {
    let mass = load.mass(rank);
    let first = load.influence(set.first().unwrap_or(0));
    let mut spots = Spots::new();
    for position in each_of(set) {
        let apart = load.influence(position).saturating_sub(first);
        let _ = spots.try_push(Spot {
            position,
            index: index.saturating_add(mass.saturating_mul(apart)),
        });
    }
    spots
}
