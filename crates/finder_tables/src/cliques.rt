//! Cliques: positions of which each two exclude each other, so that they have one place together.

use crate::load::Load;
use crate::numbers::{each_of, has, one};
use arrayvec::ArrayVec;
use position_set::PositionSet;

/// Cliques of a load, as many as a certificate may have.
pub type Cliques = ArrayVec<PositionSet, 256>;

/// The one of some positions that excludes most of them, the least of such.
fn most_excluding(load: &Load, positions: PositionSet) -> Option<u8> {
    let mut most = 0;
    let mut best = positions.first();
    for number in each_of(positions) {
        let size = load.excluded(number).intersection(positions).size();
        if size > most {
            most = size;
            best = Some(number);
        }
    }
    best
}

/// A clique with two positions, as large as it grows.
fn grown(load: &Load, first: u8, second: u8) -> PositionSet {
    let mut clique = one(first).union(one(second));
    let mut rest = load.excluded(first).intersection(load.excluded(second));
    for _ in 0..64 {
        let Some(number) = most_excluding(load, rest) else {
            return clique;
        };
        clique = clique.union(one(number));
        rest = rest.intersection(load.excluded(number));
    }
    clique
}

/// Adds cliques until each pair of a position and a later one that it excludes is in one.
fn add_cliques(load: &Load, number: u8, cliques: &mut Cliques) {
    for other in each_of(load.excluded(number)) {
        let met = cliques
            .as_slice()
            .iter()
            .any(|clique| has(*clique, number) && has(*clique, other));
        if other > number && !met {
            let _ = cliques.try_push(grown(load, number, other));
        }
    }
}

/// Cliques so that each pair of positions that exclude each other is in one, as far as there is room for them.
pub fn cliques_of(load: &Load) -> Cliques {
    let mut cliques = Cliques::new();
    for number in 0..64 {
        add_cliques(load, number, &mut cliques);
    }
    cliques
}
