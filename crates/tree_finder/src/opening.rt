//! The prices with which a search begins.

use crate::ground::Ground;
use crate::ledger::Ledger;
use base_words::NoMemory;
use finder_prices::{Held, Pair, Prices, Raising};
use finder_tables::{End, Load, Path, TickSpan};
use hold_choices::Choices;
use std::alloc::Global;

/// How many steps prices are raised before the first look.
const OPENING_STEPS: u32 = 200;

/// No prices, from an end.
pub fn free(alloc: Global, load: &Load, end: End, serial: usize) -> Result<Held, NoMemory> {
    let prices = Prices::free(alloc, load, end)?;
    let costs = prices.costs(load);
    Ok(Held {
        prices,
        costs,
        serial,
    })
}

/// Prices raised for a choice from others, in at most so many steps. The paths that were met are added.
pub fn raised(
    ground: &Ground<'_>,
    choice: &Choices,
    goal: i64,
    from: &Held,
    steps: u32,
    serial: usize,
    met: &mut Vec<Path>,
) -> Result<Held, NoMemory> {
    let raising = Raising {
        alloc: ground.alloc,
        load: ground.load,
        sets: choice.sets(),
        goal,
        unit: ground.unit,
    };
    raising.raise(&from.prices, steps, serial, met)
}

/// Prices for a choice as good as they get, from none.
fn best_from(
    ground: &Ground<'_>,
    choice: &Choices,
    ticks: TickSpan,
    end: End,
    ledger: &mut Ledger,
) -> Result<Held, NoMemory> {
    let free = free(ground.alloc, ground.load, end, 0)?;
    let mut met = Vec::new(ground.alloc);
    let serial = ledger.next_serial()?;
    raised(
        ground,
        choice,
        ticks.goal(end),
        &free,
        OPENING_STEPS,
        serial,
        &mut met,
    )
}

/// Prices for a choice from both ends, as good as they get.
pub fn opening_prices(
    ground: &Ground<'_>,
    choice: &Choices,
    ticks: TickSpan,
    ledger: &mut Ledger,
) -> Result<Pair, NoMemory> {
    Ok(Pair {
        low: best_from(ground, choice, ticks, End::Low, ledger)?,
        high: best_from(ground, choice, ticks, End::High, ledger)?,
    })
}
