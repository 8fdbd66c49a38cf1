//! What a search stands on.

use crate::cuts::{Cut, best_cut, closing_cut, leaders_in, leaders_of};
use crate::narrowing::Narrowing;
use arrayvec::ArrayVec;
use base_words::NoMemory;
use finder_paths::{mend, reach};
use finder_tables::{Load, Path, TickSpan};
use hold_choices::{Choices, is_missed};
use hold_limits::Task;
use std::alloc::Global;

/// A task, ready to be searched.
#[derive(Drop)]
pub struct Ground<'a> {
    /// Where lists are made.
    pub alloc: Global,
    /// The task.
    pub task: &'a Task,
    /// What is looked up of it.
    pub load: &'a Load,
    /// The mean mass of a container, in kilograms.
    pub unit: i64,
    narrowing: Narrowing<'a>,
    by_influence: ArrayVec<u8, 64>,
    /// For each position the first one that has its influence.
    leaders: ArrayVec<u8, 64>,
}

/// The positions with their influences, in order of number.
fn influences(load: &Load) -> ArrayVec<(i64, u8), 64> {
    let mut influences = ArrayVec::new();
    for (number, place) in (0u8..64).zip(load.places.as_slice()) {
        let _ = influences.try_push((place.influence, number));
    }
    influences
}

/// The positions by influence, equal ones by number.
fn by_influence(load: &Load) -> ArrayVec<u8, 64> {
    let mut sorted = influences(load);
    sorted.as_mut_slice().sort_unstable();
    let mut numbers = ArrayVec::new();
    for (_, number) in sorted.as_slice() {
        let _ = numbers.try_push(*number);
    }
    numbers
}

impl<'a> Ground<'a> {
    /// A task with what is looked up of it, which is `load_for` it.
    pub fn of(alloc: Global, task: &'a Task, load: &'a Load) -> Ground<'a> {
        Ground {
            alloc,
            task,
            load,
            unit: load.mean_mass(),
            narrowing: Narrowing::of(task),
            by_influence: by_influence(load),
            leaders: leaders_in(load),
        }
    }

    /// The narrowed choice. None where a container then has no position left.
    pub fn opened(&self, choice: Choices) -> Option<Choices> {
        self.narrowing.opened(choice)
    }

    /// Whether no tick leaves the remainder that all hold indices of the choice leave.
    pub fn is_missed(&self, ticks: TickSpan, choice: &Choices) -> bool {
        is_missed(self.task, ticks.low, ticks.high, choice)
    }

    /// The split by which the hold index changes most; none where each container has one position.
    pub fn best_cut(&self, choice: &Choices) -> Option<Cut> {
        best_cut(self.load, self.by_influence.as_slice(), choice.sets())
    }

    /// The split with which a choice of few paths is closed; none where each container has one position.
    pub fn closing_cut(&self, choice: &Choices) -> Option<Cut> {
        let leaders = self.leaders.as_slice();
        closing_cut(
            self.load,
            self.by_influence.as_slice(),
            leaders,
            choice.sets(),
        )
    }

    /// How many ways the influences of the containers can be chosen.
    pub fn ways(&self, choice: &Choices) -> u64 {
        let mut ways: u64 = 1;
        for set in choice.sets() {
            let influences = leaders_of(self.leaders.as_slice(), *set);
            ways = ways.saturating_mul(u64::from(influences.size()));
        }
        ways
    }

    /// A path among the ticks by moves within the choice from a sound path.
    pub fn reached(
        &self,
        choice: &Choices,
        ticks: TickSpan,
        path: &Path,
    ) -> Result<Option<Path>, NoMemory> {
        reach(self.alloc, self.load, choice.sets(), ticks, path)
    }

    /// A path among the ticks by moves within the choice from one that is not sound.
    pub fn mended(
        &self,
        choice: &Choices,
        ticks: TickSpan,
        path: &Path,
    ) -> Result<Option<Path>, NoMemory> {
        match mend(self.load, choice.sets(), ticks, path) {
            Some(sound) => self.reached(choice, ticks, &sound),
            None => Ok(None),
        }
    }
}
