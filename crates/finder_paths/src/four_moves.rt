//! A path among the ticks by two pairs of small moves.

use crate::aim::{Aim, Place};
use crate::moves::Move;
use crate::two_moves::Tried;
use base_words::NoMemory;
use finder_tables::{Path, copy_of};
use std::alloc::Global;

/// So many moves are paired, at most so many paths are tried, and so many by a second pair after a first.
const MOST_PAIRED: usize = 256;

const MOST_TESTS: u32 = 3_000;

const MOST_SECOND: usize = 16;

/// A move, by how far it is from a change.
pub type Near = (i64, Move);

/// Two moves that are apart: how they change the hold index together, and where they stand in the list of moves.
#[derive(Clone, Copy, PartialEq, Eq, PartialOrd, Ord)]
struct Pair {
    change: i64,
    first: u16,
    second: u16,
}

/// Adds the pairs of the move at a place with later ones that are apart from it.
fn add_pairs(
    moves: &[Near],
    first: u16,
    step: &Move,
    pairs: &mut Vec<Pair>,
) -> Result<(), NoMemory> {
    for (second, (_, other)) in (0u16..1_000).zip(moves) {
        if second > first && step.is_apart_from(other) {
            pairs.push(Pair {
                change: step.change.saturating_add(other.change),
                first,
                second,
            })?;
        }
    }
    Ok(())
}

/// The pairs of moves that are apart, by how they change the hold index.
fn pairs_of(alloc: Global, moves: &[Near]) -> Result<Vec<Pair>, NoMemory> {
    let mut pairs = Vec::new(alloc);
    for (first, (_, step)) in (0u16..1_000).zip(moves) {
        add_pairs(moves, first, step, &mut pairs)?;
    }
    pairs.sort_unstable();
    Ok(pairs)
}

/// The path with the move at a place.
fn moved_by(moves: &[Near], place: u16, path: &Path) -> Path {
    match moves.get(usize::from(place)) {
        Some((_, step)) => step.apply(path),
        None => copy_of(path),
    }
}

/// The path with a pair of moves.
fn moved(moves: &[Near], pair: &Pair, path: &Path) -> Path {
    moved_by(moves, pair.second, &moved_by(moves, pair.first, path))
}

/// The pairs from a place on that change the hold index by at least so much.
fn pairs_from(pairs: &[Pair], place: usize, change: i64) -> &[Pair] {
    let later = &pairs[place.min(pairs.len())..];
    let start = later.partition_point(|pair| pair.change < change);
    &later[start.min(later.len())..]
}

impl Aim<'_> {
    /// A hit by the pair at a place and one from there on.
    fn second_pair(
        &self,
        from: &Place,
        moves: &[Near],
        pairs: &[Pair],
        place: usize,
        tests: u32,
    ) -> Tried {
        let Some(first) = pairs.get(place) else {
            return Tried::Missed(tests);
        };
        let index = from.index.saturating_add(first.change);
        let most = self.ticks.high.saturating_sub(index);
        let later = pairs_from(pairs, place, self.ticks.low.saturating_sub(index));
        let mut tests = tests;
        for second in later.iter().take(MOST_SECOND) {
            if second.change > most || tests > MOST_TESTS {
                break;
            }
            tests = tests.saturating_add(1);
            let path = moved(moves, first, &from.path);
            if let Some(hit) = self.hit(moved(moves, second, &path)) {
                return Tried::Hit(hit);
            }
        }
        Tried::Missed(tests)
    }

    /// A hit by two pairs of moves, of moves by how little they change the hold index.
    pub fn four_moves(&self, from: &Place, moves: &[Near]) -> Result<Option<Path>, NoMemory> {
        let small = &moves[..moves.len().min(MOST_PAIRED)];
        let pairs = pairs_of(self.alloc, small)?;
        let mut tests = 0;
        for place in 0..pairs.len() {
            tests = match self.second_pair(from, small, pairs.as_slice(), place, tests) {
                Tried::Hit(hit) => return Ok(Some(hit)),
                Tried::Missed(tests) => tests,
            };
            if tests > MOST_TESTS {
                return Ok(None);
            }
        }
        Ok(None)
    }
}
