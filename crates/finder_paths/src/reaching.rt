//! A path among the ticks by moves from a sound one.

use crate::aim::{Aim, Place, place_of};
use crate::four_moves::Near;
use crate::moves::{Move, moves_of};
use base_words::NoMemory;
use finder_tables::{Load, Path, TickSpan, copy_of};
use position_set::PositionSet;
use std::alloc::Global;

/// From this far on no two moves are tried.
const NEAR: i64 = 3_000_000;

/// At most so many moves are gone, so many are tried to come nearer, and so many small ones where none does.
const MOST_MOVES: u32 = 40;

const MOST_NEARER: usize = 30;

const SMALL_MOVES: usize = 8;

impl Aim<'_> {
    /// Moves by how far they are from a change, the nearest first.
    fn by_nearness(&self, moves: &[Move], change: i64) -> Result<Vec<Near>, NoMemory> {
        let mut sorted = Vec::new(self.alloc);
        for step in moves {
            let far = step.change.saturating_sub(change);
            sorted.push((far.max(far.saturating_neg()), *step))?;
        }
        sorted.sort_unstable();
        Ok(sorted)
    }

    /// A sound path by the move that comes nearest to the ticks, if it comes nearer.
    fn nearer(&self, place: &Place, moves: &[Move]) -> Result<Option<Place>, NoMemory> {
        let goal = if place.index < self.ticks.low {
            self.ticks.low
        } else {
            self.ticks.high
        };
        let far = self.ticks.distance_to(place.index);
        let sorted = self.by_nearness(moves, goal.saturating_sub(place.index))?;
        for (_, step) in sorted.as_slice().iter().take(MOST_NEARER) {
            let index = place.index.saturating_add(step.change);
            if self.ticks.distance_to(index) >= far {
                return Ok(None);
            }
            if let Some(next) = place_of(self.load, step.apply(&place.path)) {
                return Ok(Some(next));
            }
        }
        Ok(None)
    }

    /// The moves from a path, by how they change the hold index.
    fn moves(&self, path: &Path) -> Result<Vec<Move>, NoMemory> {
        moves_of(self.alloc, self.load, self.sets, path)
    }

    /// A hit by a small move and then one or two, of moves by how little they change the hold index.
    fn small_first(&self, place: &Place, moves: &[Near]) -> Result<Option<Path>, NoMemory> {
        for (_, step) in moves.iter().take(SMALL_MOVES) {
            if let Some(next) = place_of(self.load, step.apply(&place.path)) {
                let moves = self.moves(&next.path)?;
                if let Some(hit) = self.two_moves(&next, moves.as_slice()) {
                    return Ok(Some(hit));
                }
            }
        }
        Ok(None)
    }

    /// A hit by small moves.
    fn by_small(&self, place: &Place, moves: &[Move]) -> Result<Option<Path>, NoMemory> {
        let sorted = self.by_nearness(moves, 0)?;
        match self.four_moves(place, sorted.as_slice())? {
            Some(hit) => Ok(Some(hit)),
            None => self.small_first(place, sorted.as_slice()),
        }
    }

    /// A path among the ticks by moves from a sound one.
    fn reach(&self, path: &Path) -> Result<Option<Path>, NoMemory> {
        let Some(mut place) = place_of(self.load, copy_of(path)) else {
            return Ok(None);
        };
        for _ in 0..MOST_MOVES {
            let far = self.ticks.distance_to(place.index);
            if far == 0 {
                return Ok(Some(place.path));
            }
            let moves = self.moves(&place.path)?;
            if far < NEAR {
                if let Some(hit) = self.two_moves(&place, moves.as_slice()) {
                    return Ok(Some(hit));
                }
            }
            match self.nearer(&place, moves.as_slice())? {
                Some(next) => place = next,
                None => return self.by_small(&place, moves.as_slice()),
            }
        }
        Ok(None)
    }
}

/// A sound path among the ticks by moves of containers within their sets, from one that may be sound. None where none is found.
pub fn reach(
    alloc: Global,
    load: &Load,
    sets: &[PositionSet],
    ticks: TickSpan,
    path: &Path,
) -> Result<Option<Path>, NoMemory> {
    let aim = Aim {
        alloc,
        load,
        sets,
        ticks,
    };
    aim.reach(path)
}
