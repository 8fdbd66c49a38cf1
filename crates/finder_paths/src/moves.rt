//! Moves from one path to another: a container goes to a free position, or two containers exchange theirs.

use base_words::NoMemory;
use finder_tables::{
    Load, Path, copy_of, each_of, exchange, has, number_at, one, put, set_at, used_by,
};
use position_set::PositionSet;
use std::alloc::Global;

/// What a container does, in the order in which moves are tried among those that change the hold index equally.
#[derive(Clone, Copy, Debug, PartialEq, Eq, PartialOrd, Ord)]
pub enum Moved {
    /// It exchanges its position with the container at a later rank.
    With(u8),
    /// It goes to a position.
    To(u8),
}

/// A move of the container at a rank, and how it changes the hold index.
#[derive(Clone, Copy, Debug, PartialEq, Eq, PartialOrd, Ord)]
pub struct Move {
    pub change: i64,
    rank: u8,
    moved: Moved,
}

impl Move {
    /// The path with this move.
    pub fn apply(&self, path: &Path) -> Path {
        let mut moved = copy_of(path);
        let rank = usize::from(self.rank);
        match self.moved {
            Moved::To(number) => put(&mut moved, rank, number),
            Moved::With(other) => exchange(&mut moved, rank, usize::from(other)),
        }
        moved
    }

    /// Whether the container at a rank moves.
    fn takes(&self, rank: u8) -> bool {
        match self.moved {
            Moved::With(other) => rank == self.rank || rank == other,
            Moved::To(_) => rank == self.rank,
        }
    }

    /// Whether the moves have no container and no position in common.
    pub fn is_apart_from(&self, other: &Move) -> bool {
        let apart = !other.takes(self.rank);
        match (self.moved, other.moved) {
            (Moved::With(rank), _) => apart && !other.takes(rank),
            (Moved::To(place), Moved::To(number)) => apart && place != number,
            (Moved::To(_), Moved::With(_)) => apart,
        }
    }
}

/// The moves of the containers of a choice that have more than one position.
#[derive(Clone, Copy)]
struct Moving<'a> {
    load: &'a Load,
    sets: &'a [PositionSet],
    path: &'a Path,
    used: PositionSet,
}

impl Moving<'_> {
    /// How the hold index changes where a mass goes from one position to another.
    fn change(&self, mass: i64, from: u8, to: u8) -> i64 {
        let gap = self
            .load
            .influence(to)
            .saturating_sub(self.load.influence(from));
        mass.saturating_mul(gap)
    }

    /// Adds the moves of the container at a rank to a position that nobody uses.
    fn add_goings(&self, rank: u8, moves: &mut Vec<Move>) -> Result<(), NoMemory> {
        let place = usize::from(rank);
        let mass = self.load.mass(place);
        let from = number_at(self.path, place);
        let others = self.used.difference(one(from));
        let free = set_at(self.sets, place).difference(self.used);
        for number in each_of(free) {
            if !self.load.taken(number).meets(others) {
                moves.push(Move {
                    change: self.change(mass, from, number),
                    rank,
                    moved: Moved::To(number),
                })?;
            }
        }
        Ok(())
    }

    /// The exchange of the containers at two ranks, where it changes the hold index.
    fn exchange(&self, rank: u8, other: u8) -> Option<Move> {
        let (first, second) = (usize::from(rank), usize::from(other));
        let from = number_at(self.path, first);
        let to = number_at(self.path, second);
        let mass = self.load.mass(first);
        let change = self.change(mass.saturating_sub(self.load.mass(second)), from, to);
        let may = has(set_at(self.sets, first), to) && has(set_at(self.sets, second), from);
        if change != 0 && may {
            Some(Move {
                change,
                rank,
                moved: Moved::With(other),
            })
        } else {
            None
        }
    }

    /// Adds the exchanges of the container at a rank with later ones.
    fn add_exchanges(&self, rank: u8, moves: &mut Vec<Move>) -> Result<(), NoMemory> {
        for (other, _) in (0u8..60).zip(self.path.as_slice()) {
            if other > rank {
                if let Some(step) = self.exchange(rank, other) {
                    moves.push(step)?;
                }
            }
        }
        Ok(())
    }
}

/// All moves of containers that have more than one position, by how they change the hold index.
pub fn moves_of(
    alloc: Global,
    load: &Load,
    sets: &[PositionSet],
    path: &Path,
) -> Result<Vec<Move>, NoMemory> {
    let moving = Moving {
        load,
        sets,
        path,
        used: used_by(path.as_slice()),
    };
    let mut moves = Vec::new(alloc);
    for (rank, set) in (0u8..60).zip(sets) {
        if set.only().is_none() {
            moving.add_goings(rank, &mut moves)?;
            moving.add_exchanges(rank, &mut moves)?;
        }
    }
    moves.sort_unstable();
    Ok(moves)
}

/// The moves that change the hold index by at least so much, of moves by how they change it.
pub fn from_change(moves: &[Move], change: i64) -> &[Move] {
    let start = moves.partition_point(|step| step.change < change);
    from_place(moves, start)
}

/// The moves from a place on.
pub fn from_place(moves: &[Move], start: usize) -> &[Move] {
    let start = start.min(moves.len());
    &moves[start..]
}
