//! How a choice is split in two.

use arrayvec::ArrayVec;
use finder_tables::{Load, each_of, has, one};
use position_set::PositionSet;

/// A split of the positions of one container: the first part has the lesser influences.
#[derive(Clone, Copy)]
pub struct Cut {
    /// The rank of the container.
    pub rank: usize,
    /// The positions of the first part.
    pub first: PositionSet,
    /// How much the hold index changes from one part to the other, and how many positions the smaller part has.
    weight: (i64, u8),
}

impl Cut {
    /// The one that weighs more; the first where they weigh the same.
    fn heavier(best: Option<Cut>, cut: Cut) -> Option<Cut> {
        match best {
            Some(other) if cut.weight <= other.weight => Some(other),
            _ => Some(cut),
        }
    }
}

/// The best split of the positions of the container at a rank, given all positions by influence, where its weight is shared
/// among so many.
fn best_at(
    load: &Load,
    by_influence: &[u8],
    rank: usize,
    set: PositionSet,
    share: i64,
) -> Option<Cut> {
    let mass = load.mass(rank).saturating_add(1);
    let mut first = PositionSet::empty();
    let mut last: Option<i64> = None;
    let mut best = None;
    for number in by_influence {
        if !has(set, *number) {
            continue;
        }
        let influence = load.influence(*number);
        if let Some(before) = last {
            let gap = influence.saturating_sub(before);
            let even = first.size().min(set.difference(first).size());
            let change = mass.saturating_mul(gap).checked_div(share).unwrap_or(0);
            let weight = (change, even);
            best = Cut::heavier(
                best,
                Cut {
                    rank,
                    first,
                    weight,
                },
            );
        }
        first = first.union(one(*number));
        last = Some(influence);
    }
    best
}

/// The split by which the hold index changes most; none where each container has one position.
pub fn best_cut(load: &Load, by_influence: &[u8], sets: &[PositionSet]) -> Option<Cut> {
    let mut best = None;
    for (rank, set) in sets.iter().enumerate() {
        if let Some(cut) = best_at(load, by_influence, rank, *set, 1) {
            best = Cut::heavier(best, cut);
        }
    }
    best
}

/// The split by which the hold index changes most for each influence that the container has among its positions; none where
/// each container has one position. So those are split first that have few left.
pub fn closing_cut(
    load: &Load,
    by_influence: &[u8],
    leaders: &[u8],
    sets: &[PositionSet],
) -> Option<Cut> {
    let mut best = None;
    for (rank, set) in sets.iter().enumerate() {
        let share = i64::from(leaders_of(leaders, *set).size());
        if let Some(cut) = best_at(load, by_influence, rank, *set, share) {
            best = Cut::heavier(best, cut);
        }
    }
    best
}

/// For each position the first one that has its influence.
pub fn leaders_in(load: &Load) -> ArrayVec<u8, 64> {
    let mut leaders = ArrayVec::new();
    for number in 0u8..64 {
        let influence = load.influence(number);
        let leader = (0..number).find(|other| load.influence(*other) == influence);
        let _ = leaders.try_push(leader.unwrap_or(number));
    }
    leaders
}

/// The first positions that have the influences of some.
pub fn leaders_of(leaders: &[u8], set: PositionSet) -> PositionSet {
    let mut led = PositionSet::empty();
    for number in each_of(set) {
        if let Some(leader) = leaders.get(usize::from(number)) {
            led = led.union(one(*leader));
        }
    }
    led
}
