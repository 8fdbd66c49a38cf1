//! A task as the search sees it.

use crate::cliques::Cliques;
use crate::numbers::{has, one};
use crate::ticks::TickSpan;
use arrayvec::ArrayVec;
use position_set::PositionSet;

/// What is looked up of a container.
#[derive(Clone, Copy, Debug, Default)]
pub struct Container {
    /// Its mass, in kilograms.
    pub mass: i64,
    /// The rank of the first of its twins, which may be itself.
    pub class: u8,
    /// The positions that accept it.
    pub accepted: PositionSet,
}

/// What is looked up of a position.
#[derive(Clone, Copy, Debug, Default)]
pub struct Place {
    /// Ticks of the index for each kilogram on it.
    pub influence: i64,
    /// What a container on it takes from all others: itself, and the positions that it excludes.
    pub taken: PositionSet,
}

/// A limit on the mass of some positions together.
#[derive(Clone, Copy, Debug, Default)]
pub struct Limit {
    /// The positions whose mass counts.
    pub counted: PositionSet,
    /// Those whose mass counts the other way, as the left ones do in what the right is over the left.
    pub discounted: PositionSet,
    /// How much the loose loads leave, in kilograms. It is below zero where they break the limit.
    pub room: i64,
}

impl Limit {
    /// What a mass on a position adds to the load of the limit.
    pub fn load_on(&self, number: u8, mass: i64) -> i64 {
        if has(self.counted, number) {
            mass
        } else if has(self.discounted, number) {
            mass.saturating_neg()
        } else {
            0
        }
    }

    /// All positions whose mass counts either way.
    pub fn touched(&self) -> PositionSet {
        self.counted.union(self.discounted)
    }
}

/// A task: its containers in branch order, its positions, limits and cliques.
#[derive(Debug, Drop)]
pub struct Load {
    pub containers: ArrayVec<Container, 60>,
    pub places: ArrayVec<Place, 64>,
    pub limits: ArrayVec<Limit, 194>,
    /// Positions that exclude each other, with one place together.
    pub cliques: Cliques,
    /// The moment of the loose loads, in ticks.
    pub loose: i64,
    /// The hold indices that are allowed, and those with which the take-off index is in the ideal band.
    pub window: TickSpan,
    pub ideal: TickSpan,
}

impl Load {
    /// The mass of the container at a rank.
    pub fn mass(&self, rank: usize) -> i64 {
        match self.containers.as_slice().get(rank) {
            Some(container) => container.mass,
            None => 0,
        }
    }

    /// The rank of the first twin of the container at a rank.
    pub fn class(&self, rank: usize) -> u8 {
        match self.containers.as_slice().get(rank) {
            Some(container) => container.class,
            None => 0,
        }
    }

    /// Ticks of the index for each kilogram on a position.
    pub fn influence(&self, number: u8) -> i64 {
        match self.places.as_slice().get(usize::from(number)) {
            Some(place) => place.influence,
            None => 0,
        }
    }

    /// What a container on a position takes from all others.
    pub fn taken(&self, number: u8) -> PositionSet {
        match self.places.as_slice().get(usize::from(number)) {
            Some(place) => place.taken,
            None => PositionSet::empty(),
        }
    }

    /// The positions that a position excludes.
    pub fn excluded(&self, number: u8) -> PositionSet {
        self.taken(number).difference(one(number))
    }

    /// The ticks of the window at most so far from the ideal.
    pub fn ticks_within(&self, distance: i64) -> TickSpan {
        let ideal = self.ideal.wider(distance);
        TickSpan {
            low: self.window.low.max(ideal.low),
            high: self.window.high.min(ideal.high),
        }
    }

    /// The ticks of the window that are nearer to the ideal than so far.
    pub fn ticks_nearer(&self, distance: i64) -> TickSpan {
        if distance > 0 {
            self.ticks_within(distance.saturating_sub(1))
        } else {
            TickSpan { low: 1, high: 0 }
        }
    }

    /// The mean mass of a container, at least 1.
    pub fn mean_mass(&self) -> i64 {
        let mut sum: i64 = 0;
        let mut count: i64 = 0;
        for container in self.containers.as_slice() {
            sum = sum.saturating_add(container.mass);
            count = count.saturating_add(1);
        }
        sum.checked_div(count).unwrap_or(1).max(1)
    }
}
