//! A path among the ticks by one or two moves.

use crate::aim::{Aim, Place};
use crate::moves::{Move, from_change, from_place};
use finder_tables::Path;

/// At most so many paths are tried, so many of them by one move, and so many by a second one after a first.
const MOST_TESTS: u32 = 1_500;

const MOST_FIRST: usize = 50;

const MOST_SECOND: usize = 8;

/// What a trial of moves ends with.
#[derive(Drop)]
pub enum Tried {
    Hit(Path),
    /// None of them hits, and so many tests were made.
    Missed(u32),
}

impl Aim<'_> {
    /// A hit by one move.
    fn one_move(&self, place: &Place, moves: &[Move]) -> Tried {
        let least = self.ticks.low.saturating_sub(place.index);
        let most = self.ticks.high.saturating_sub(place.index);
        let mut tests: u32 = 0;
        for step in from_change(moves, least).iter().take(MOST_FIRST) {
            if step.change > most {
                break;
            }
            tests = tests.saturating_add(1);
            if let Some(hit) = self.hit(step.apply(&place.path)) {
                return Tried::Hit(hit);
            }
        }
        Tried::Missed(tests)
    }

    /// A hit by a move and one of those behind it in the list.
    fn second_move(&self, place: &Place, first: &Move, later: &[Move], tests: u32) -> Tried {
        let index = place.index.saturating_add(first.change);
        let most = self.ticks.high.saturating_sub(index);
        let mut tests = tests;
        for step in from_change(later, self.ticks.low.saturating_sub(index))
            .iter()
            .take(MOST_SECOND)
        {
            if step.change > most || tests > MOST_TESTS {
                break;
            }
            if first.is_apart_from(step) {
                tests = tests.saturating_add(1);
                if let Some(hit) = self.hit(step.apply(&first.apply(&place.path))) {
                    return Tried::Hit(hit);
                }
            }
        }
        Tried::Missed(tests)
    }

    /// A hit by one or two moves, of moves by how they change the hold index.
    pub fn two_moves(&self, place: &Place, moves: &[Move]) -> Option<Path> {
        let mut tests = match self.one_move(place, moves) {
            Tried::Hit(hit) => return Some(hit),
            Tried::Missed(tests) => tests,
        };
        for (at, first) in moves.iter().enumerate() {
            if tests > MOST_TESTS {
                return None;
            }
            let later = from_place(moves, at.saturating_add(1));
            tests = match self.second_move(place, first, later, tests) {
                Tried::Hit(hit) => return Some(hit),
                Tried::Missed(tests) => tests,
            };
        }
        None
    }
}
