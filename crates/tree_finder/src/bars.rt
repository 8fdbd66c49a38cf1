//! Limits one by one: prices so high that each position is taken on which a container breaks the limit.

use crate::closed::Closed;
use crate::ground::Ground;
use crate::ledger::Ledger;
use crate::opening::free;
use crate::showing::show;
use base_words::NoMemory;
use finder_prices::Held;
use finder_tables::{End, Limit, Load, TickSpan};
use hold_choices::Choices;
use position_set::PositionSet;
use tree_certificate::Operation;

/// A price of a kilogram that outweighs what the hold indices of a hold differ by.
const BAR: i64 = 1_000_000_000_000;

/// For each limit its price alone, where it was needed.
#[derive(Drop)]
pub struct Bars {
    held: Vec<Option<Held>>,
}

/// The least that a container of a mass loads a limit with on one of some positions.
fn least_load(limit: &Limit, mass: i64, set: PositionSet) -> i64 {
    if set.meets(limit.discounted) {
        mass.saturating_neg()
    } else if set.difference(limit.counted).is_empty() {
        mass
    } else {
        0
    }
}

/// The most that it loads it with.
fn most_load(limit: &Limit, mass: i64, set: PositionSet) -> i64 {
    if set.meets(limit.counted) {
        mass
    } else if set.difference(limit.discounted).is_empty() {
        mass.saturating_neg()
    } else {
        0
    }
}

/// Whether some container can break a limit where the others load it as little as they may.
fn may_break(load: &Load, limit: &Limit, sets: &[PositionSet]) -> bool {
    let mut sum: i64 = 0;
    let mut widest: i64 = 0;
    for (container, set) in load.containers.as_slice().iter().zip(sets) {
        let least = least_load(limit, container.mass, *set);
        let most = most_load(limit, container.mass, *set);
        sum = sum.saturating_add(least);
        widest = widest.max(most.saturating_sub(least));
    }
    sum.saturating_add(widest) > limit.room
}

/// The positions of the containers that have more than one.
fn open_positions(sets: &[PositionSet]) -> PositionSet {
    let mut open = PositionSet::empty();
    for set in sets {
        if set.only().is_none() {
            open = open.union(*set);
        }
    }
    open
}

/// The price of a limit alone.
fn bar(ground: &Ground<'_>, number: usize, serial: usize) -> Result<Held, NoMemory> {
    let mut held = free(ground.alloc, ground.load, End::Low, serial)?;
    if let Some(price) = held.prices.limits.as_mut_slice().get_mut(number) {
        *price = BAR;
    }
    held.costs = held.prices.costs(ground.load);
    Ok(held)
}

impl Bars {
    /// None yet.
    pub fn of(ground: &Ground<'_>) -> Result<Bars, NoMemory> {
        let mut held = Vec::new(ground.alloc);
        for _ in ground.load.limits.as_slice() {
            held.push(None)?;
        }
        Ok(Bars { held })
    }

    /// Makes the price of a limit, where there is none yet.
    fn make(
        &mut self,
        ground: &Ground<'_>,
        ledger: &mut Ledger,
        number: usize,
    ) -> Result<(), NoMemory> {
        if let Some(place) = self.held.as_mut_slice().get_mut(number) {
            if place.is_none() {
                *place = Some(bar(ground, number, ledger.next_serial()?)?);
            }
        }
        Ok(())
    }

    /// What one limit takes from a choice.
    fn show_one(
        &mut self,
        ground: &Ground<'_>,
        ticks: TickSpan,
        ledger: &mut Ledger,
        number: usize,
        choice: &mut Choices,
        tree: &mut Vec<Operation>,
    ) -> Result<bool, Closed> {
        self.make(ground, ledger, number)?;
        match self.held.as_slice().get(number) {
            Some(Some(held)) => show(ground, ticks, ledger, held, choice, tree),
            _ => Ok(false),
        }
    }

    /// What the limits take from a choice that its open containers may load.
    pub fn show(
        &mut self,
        ground: &Ground<'_>,
        ticks: TickSpan,
        ledger: &mut Ledger,
        choice: &mut Choices,
        tree: &mut Vec<Operation>,
    ) -> Result<bool, Closed> {
        let open = open_positions(choice.sets());
        let mut taken = false;
        for (number, limit) in ground.load.limits.as_slice().iter().enumerate() {
            if limit.touched().meets(open) && may_break(ground.load, limit, choice.sets()) {
                let by_limit = self.show_one(ground, ticks, ledger, number, choice, tree)?;
                taken = taken || by_limit;
            }
        }
        Ok(taken)
    }
}
