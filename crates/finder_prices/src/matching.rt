//! The cheapest assignment of containers to different positions, by the Hungarian method.

ghost use Rattle.std.specs.Prelude.{◌<◌};

use crate::costs::Costs;
use crate::growth::Growth;
use arrayvec::ArrayVec;
use finder_tables::{Load, each_of, set_at};
use position_set::PositionSet;

/// Ranks of containers.
pub type Ranks = ArrayVec<u8, 60>;

/// What an assignment ends with.
#[derive(Drop)]
pub enum Assigned {
    /// Each container has a position, by its rank; and what the positions are worth.
    Whole {
        places: [Option<u8>; 64],
        worth: [i64; 64],
    },
    /// Containers that have fewer positions than they are.
    Short {
        ranks: Ranks,
        places: PositionSet,
    },
}

/// An assignment of some containers, with what makes it the cheapest: no position costs a container less than its own.
#[derive(Drop)]
struct Matching<'a> {
    load: &'a Load,
    sets: &'a [PositionSet],
    /// The costs, with what a position is worth as a fee.
    costs: Costs,
    /// What a position is worth: nothing where nobody has it.
    worth: [i64; 64],
    /// The container that has a position, and the position that a container has, by its rank.
    owners: [Option<u8>; 64],
    places: [Option<u8>; 64],
}

/// The place of a number, or of a rank, in a table.
fn slot(number: u8) -> usize
    ensures { result < 64 }
{
    usize::from(number % 64)
}

impl Matching<'_> {
    fn mass(&self, rank: u8) -> i64 {
        self.load.mass(usize::from(rank))
    }

    fn set(&self, rank: u8) -> PositionSet {
        set_at(self.sets, usize::from(rank))
    }

    /// The cheapest position of a container.
    fn cheapest(&self, rank: u8) -> Option<u8> {
        let mass = self.mass(rank);
        let mut least = i64::MAX;
        let mut cheapest = 0;
        for number in each_of(self.set(rank)) {
            let cost = self.costs.wrapped(mass, number);
            if cost < least {
                least = cost;
                cheapest = number;
            }
        }
        if least < i64::MAX {
            Some(cheapest)
        } else {
            None
        }
    }

    /// Gives a position to a container.
    fn give(&mut self, number: u8, rank: u8) {
        self.owners[slot(number)] = Some(rank);
        self.places[slot(rank)] = Some(number);
    }

    /// Gives each container its cheapest position where no earlier one has it. The ranks of those without one are left; or
    /// the first that has no position at all.
    fn begin(&mut self, ranks: &Ranks) -> Result<Ranks, u8> {
        let mut left = Ranks::new();
        for rank in ranks.as_slice() {
            let Some(number) = self.cheapest(*rank) else {
                return Err(*rank);
            };
            if self.owners[slot(number)].is_none() {
                self.give(number, *rank);
            } else {
                let _ = left.try_push(*rank);
            }
        }
        Ok(left)
    }

    /// Looks from a container on: it might go to any of its positions, for so much beside what they cost.
    fn look_from(&self, growth: &mut Growth, rank: u8, shift: i64) {
        let mass = self.mass(rank);
        for number in each_of(growth.open(self.set(rank))) {
            let length = self.costs.wrapped(mass, number).wrapping_add(shift);
            growth.reach(number, rank, length);
        }
    }

    /// Grows paths from a container until one comes to a position that nobody has. None where none does.
    fn grow(&self, growth: &mut Growth, first: u8) -> Option<u8> {
        self.look_from(growth, first, 0);
        for _ in 0..64 {
            let number = growth.advance()?;
            let Some(owner) = self.owners[slot(number)] else {
                return Some(number);
            };
            let cost = self.costs.wrapped(self.mass(owner), number);
            self.look_from(growth, owner, growth.length.wrapping_sub(cost));
        }
        None
    }

    /// Makes each position that was met worth so much more that all paths which are not shorter are as cheap.
    fn settle(&mut self, growth: &Growth) {
        for number in each_of(growth.done) {
            let gain = growth.length.wrapping_sub(growth.length_to(number));
            self.costs.raise_fee(number, gain);
            self.worth[slot(number)] = self.worth[slot(number)].wrapping_add(gain);
        }
    }

    /// Turns owners out along the path to a position.
    fn turn_out(&mut self, growth: &Growth, last: u8) {
        let mut number = last;
        for _ in 0..=64 {
            let rank = growth.before(number);
            let left = self.places[slot(rank)];
            self.give(number, rank);
            match left {
                Some(place) => number = place,
                None => return,
            }
        }
    }

    /// Gives a container a position, and the others others. False where there are too few for those that were met.
    fn add(&mut self, rank: u8, growth: &mut Growth) -> bool {
        let Some(last) = self.grow(growth, rank) else {
            return false;
        };
        self.settle(growth);
        self.turn_out(growth, last);
        true
    }

    /// A container and those that have the positions which were met from it, where these are too few for them.
    fn short(&self, growth: &Growth, first: u8) -> Assigned {
        let mut ranks = only(first);
        for number in each_of(growth.done) {
            if let Some(owner) = self.owners[slot(number)] {
                let _ = ranks.try_push(owner);
            }
        }
        Assigned::Short {
            ranks,
            places: growth.done,
        }
    }
}

/// One rank alone.
fn only(rank: u8) -> Ranks {
    let mut ranks = Ranks::new();
    let _ = ranks.try_push(rank);
    ranks
}

/// A container that has no position at all.
fn nowhere(rank: u8) -> Assigned {
    Assigned::Short {
        ranks: only(rank),
        places: PositionSet::empty(),
    }
}

/// Assigns the containers of these ranks to different positions of theirs, so that the costs are least together.
pub fn assign(load: &Load, sets: &[PositionSet], costs: &Costs, ranks: &Ranks) -> Assigned {
    let mut matching = Matching {
        load,
        sets,
        costs: *costs,
        worth: [0; 64],
        owners: [None; 64],
        places: [None; 64],
    };
    let left = match matching.begin(ranks) {
        Ok(left) => left,
        Err(rank) => return nowhere(rank),
    };
    for rank in left.as_slice() {
        let mut growth = Growth::new();
        if !matching.add(*rank, &mut growth) {
            return matching.short(&growth, *rank);
        }
    }
    Assigned::Whole {
        places: matching.places,
        worth: matching.worth,
    }
}
