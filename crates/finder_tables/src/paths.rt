//! Paths: position numbers for containers in branch order.

use arrayvec::ArrayVec;
use position_set::PositionSet;

/// A position number for each container in branch order, as far as it goes.
pub type Path = ArrayVec<u8, 60>;

/// The number at a rank; 0 past the end.
pub fn number_at(path: &Path, rank: usize) -> u8 {
    match path.as_slice().get(rank) {
        Some(number) => *number,
        None => 0,
    }
}

/// Puts a number at a rank, unless that is past the end.
pub fn put(path: &mut Path, rank: usize, number: u8) {
    if let Some(place) = path.as_mut_slice().get_mut(rank) {
        *place = number;
    }
}

/// Exchanges the numbers at two ranks, unless one is past the end.
pub fn exchange(path: &mut Path, one: usize, other: usize) {
    if one < path.len() && other < path.len() {
        path.as_mut_slice().swap(one, other);
    }
}

/// The same path.
pub fn copy_of(path: &Path) -> Path {
    match Path::try_from(path.as_slice()) {
        Ok(copy) => copy,
        Err(_) => Path::new(),
    }
}

/// The set at a rank; the empty one past the end.
pub fn set_at(sets: &[PositionSet], rank: usize) -> PositionSet {
    match sets.get(rank) {
        Some(set) => *set,
        None => PositionSet::empty(),
    }
}
