//! What moves are tried for, and a place from which they start.

use finder_tables::{Load, Path, TickSpan, sound_index};
use position_set::PositionSet;
use std::alloc::Global;

/// A sound path with its hold index.
#[derive(Drop)]
pub struct Place {
    pub path: Path,
    pub index: i64,
}

/// A path with its hold index, where it is sound.
pub fn place_of(load: &Load, path: Path) -> Option<Place> {
    let index = sound_index(load, path.as_slice())?;
    Some(Place { path, index })
}

/// What moves are tried for: a path among the ticks, of containers within their sets.
#[derive(Clone, Copy)]
pub struct Aim<'a> {
    pub alloc: Global,
    pub load: &'a Load,
    pub sets: &'a [PositionSet],
    pub ticks: TickSpan,
}

impl Aim<'_> {
    /// The path, where it is sound and among the ticks.
    pub fn hit(&self, path: Path) -> Option<Path> {
        let place = place_of(self.load, path)?;
        if self.ticks.distance_to(place.index) == 0 {
            Some(place.path)
        } else {
            None
        }
    }
}
