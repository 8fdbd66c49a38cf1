// A load of two containers and four positions, two on each side of the reference.
use arrayvec::ArrayVec;
use finder_tables::{Cliques, Container, Limit, Load, Place, TickSpan, one};
use position_set::PositionSet;

// The set of two numbers.
pub fn pair(first: u8, second: u8) -> PositionSet {
    one(first).union(one(second))
}

// Positions 0 to 3.
pub fn four() -> PositionSet {
    pair(0, 1).union(pair(2, 3))
}

fn containers(masses: &[i64]) -> ArrayVec<Container, 60> {
    let mut containers = ArrayVec::new();
    for (rank, mass) in (0u8..60).zip(masses) {
        let _ = containers.try_push(Container {
            mass: *mass,
            class: rank,
            accepted: four(),
        });
    }
    containers
}

// Positions of these influences; 1 and 2 exclude each other.
fn places() -> ArrayVec<Place, 64> {
    let mut places = ArrayVec::new();
    for (influence, taken) in [
        (-600, one(0)),
        (-400, pair(1, 2)),
        (400, pair(1, 2)),
        (600, one(3)),
    ] {
        let _ = places.try_push(Place { influence, taken });
    }
    places
}

// Containers of these masses. Positions 0 and 1 together bear 500 kg more than 2 and 3, and a loose load has a moment of 7.
pub fn load(masses: &[i64]) -> Load {
    let mut limits = ArrayVec::new();
    let _ = limits.try_push(Limit {
        counted: pair(0, 1),
        discounted: pair(2, 3),
        room: 500,
    });
    Load {
        containers: containers(masses),
        places: places(),
        limits,
        cliques: Cliques::new(),
        loose: 7,
        window: TickSpan {
            low: -1_000_000,
            high: 1_000_000,
        },
        ideal: TickSpan { low: -10, high: 20 },
    }
}
