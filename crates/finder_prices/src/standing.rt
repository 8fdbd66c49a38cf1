//! Where the containers of a choice stand, or may stand.

use crate::matching::Ranks;
use finder_tables::{Limit, Load};
use position_set::PositionSet;

/// The positions that a container has alone, and those of the containers that have more than one.
#[derive(Clone, Copy)]
pub struct Standing {
    settled: PositionSet,
    open: PositionSet,
}

impl Standing {
    pub fn of(sets: &[PositionSet]) -> Standing {
        let mut settled = PositionSet::empty();
        let mut open = PositionSet::empty();
        for set in sets {
            if set.only().is_some() {
                settled = settled.union(*set);
            } else {
                open = open.union(*set);
            }
        }
        Standing { settled, open }
    }

    /// Whether a clique has a place that some container may take, and none that one has.
    pub fn is_live(&self, clique: PositionSet) -> bool {
        clique.meets(self.open) && !clique.meets(self.settled)
    }

    /// Whether a container may yet change the load of a limit.
    pub fn touches(&self, limit: &Limit) -> bool {
        limit.touched().meets(self.open)
    }
}

/// The ranks of the containers that have more than one position.
pub fn open_ranks(sets: &[PositionSet]) -> Ranks {
    let mut ranks = Ranks::new();
    for (rank, set) in (0..60).zip(sets) {
        if set.only().is_none() {
            let _ = ranks.try_push(rank);
        }
    }
    ranks
}

/// What the containers with one position alone bring under a limit.
pub fn settled_load(load: &Load, sets: &[PositionSet], limit: &Limit) -> i64 {
    let mut sum: i64 = 0;
    for (container, set) in load.containers.as_slice().iter().zip(sets) {
        if let Some(number) = set.only() {
            sum = sum.saturating_add(limit.load_on(number, container.mass));
        }
    }
    sum
}
