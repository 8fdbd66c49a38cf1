//! Paths that were met at a look.

use finder_tables::{Load, Path, TickSpan, copy_of, has, rising, sound_index};
use position_set::PositionSet;

/// The paths from which others are tried.
#[derive(Drop)]
pub struct Met {
    /// The sound path whose hold index is nearest to the ticks, with how far that is.
    pub nearest: Option<(i64, Path)>,
    /// The last path that is not sound.
    pub broken: Option<Path>,
}

impl Met {
    /// None.
    pub fn nothing() -> Met {
        Met {
            nearest: None,
            broken: None,
        }
    }

    fn is_nearer(&self, far: i64) -> bool {
        match &self.nearest {
            Some((nearest, _)) => far < *nearest,
            None => true,
        }
    }

    /// Notes a path. It is returned, with its twins in order, where its hold index is among the ticks.
    fn note(&mut self, load: &Load, ticks: TickSpan, path: &Path) -> Option<Path> {
        let Some(index) = sound_index(load, path.as_slice()) else {
            self.broken = Some(copy_of(path));
            return None;
        };
        let far = ticks.distance_to(index);
        if far == 0 {
            return Some(rising(load, path));
        }
        if self.is_nearer(far) {
            self.nearest = Some((far, copy_of(path)));
        }
        None
    }

    /// Notes paths up to the first one whose hold index is among the ticks, which is returned.
    pub fn note_all(&mut self, load: &Load, ticks: TickSpan, paths: &[Path]) -> Option<Path> {
        for path in paths {
            if let Some(found) = self.note(load, ticks, path) {
                return Some(found);
            }
        }
        None
    }
}

/// Whether each number of a path is in its set.
pub fn is_among(sets: &[PositionSet], path: &Path) -> bool {
    path.as_slice()
        .iter()
        .zip(sets)
        .all(|(number, set)| has(*set, *number))
}
