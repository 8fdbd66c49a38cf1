//! Paths from a container without a position to all that it may come to by turning others out.

use finder_tables::{each_of, one};
use position_set::PositionSet;

/// More than the length of any path.
const FAR: i64 = i64::MAX;

/// Paths, the shortest to each position, and how far they have grown.
#[derive(Drop)]
pub struct Growth {
    /// The length of the shortest path to each position, and the rank of the last container on it.
    least: [i64; 64],
    before: [u8; 64],
    /// The positions that are settled, and those that are met and not settled.
    pub done: PositionSet,
    front: PositionSet,
    /// The nearest position in front so far, and how far it is; and those in front that the last look did not reach.
    nearest: u8,
    distance: i64,
    behind: PositionSet,
    /// The length of the last path.
    pub length: i64,
}

impl Growth {
    pub fn new() -> Growth {
        Growth {
            least: [FAR; 64],
            before: [0; 64],
            done: PositionSet::empty(),
            front: PositionSet::empty(),
            nearest: 0,
            distance: FAR,
            behind: PositionSet::empty(),
            length: 0,
        }
    }

    /// The rank of the last container on the path to a position.
    pub fn before(&self, number: u8) -> u8 {
        self.before[usize::from(number % 64)]
    }

    /// The length of the path to a position.
    pub fn length_to(&self, number: u8) -> i64 {
        self.least[usize::from(number % 64)]
    }

    /// Notes a path to a position by a container, where none is as short.
    pub fn reach(&mut self, number: u8, rank: u8, length: i64) {
        let place = usize::from(number % 64);
        if length < self.least[place] {
            self.least[place] = length;
            self.before[place] = rank;
        }
        self.compare(number);
    }

    /// Compares a position in front with the nearest so far.
    fn compare(&mut self, number: u8) {
        let length = self.length_to(number);
        if length < self.distance {
            self.distance = length;
            self.nearest = number;
        }
    }

    /// The positions of a set that are not settled: paths to all of them are noted.
    pub fn open(&mut self, set: PositionSet) -> PositionSet {
        let ahead = set.difference(self.done);
        self.distance = FAR;
        self.behind = self.front.difference(ahead);
        self.front = self.front.union(ahead);
        ahead
    }

    /// Settles the nearest position in front. None where there is none.
    pub fn advance(&mut self) -> Option<u8> {
        for number in each_of(self.behind) {
            self.compare(number);
        }
        if self.distance == FAR {
            return None;
        }
        self.length = self.distance;
        self.done = self.done.union(one(self.nearest));
        self.front = self.front.difference(one(self.nearest));
        Some(self.nearest)
    }
}
