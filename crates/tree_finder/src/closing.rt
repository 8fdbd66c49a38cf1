//! The end of a search: choices with few paths, for which no prices are raised.

use crate::bars::Bars;
use crate::closed::Closed;
use crate::ground::Ground;
use crate::ledger::Ledger;
use crate::opening::free;
use crate::showing::{append, firsts, show};
use base_words::NoMemory;
use finder_prices::Pair;
use finder_remainders::{Class, forbidden_class};
use finder_tables::{End, TickSpan, sound_index};
use hold_choices::Choices;
use tree_certificate::Operation;

/// So many choices are looked at by what is cheap to see, at most, to close one.
const MOST_STEPS: u32 = 20_000;

/// What is seen of one is tried again so often, where something was.
const MOST_ROUNDS: u32 = 20;

/// What closes choices: no prices, and the price of each limit alone.
#[derive(Drop)]
pub struct Closing {
    free: Pair,
    bars: Bars,
    /// How many choices may still be looked at to close others.
    steps: u32,
}

/// Splits a class from a choice that no tick allows.
fn split_off(
    ground: &Ground<'_>,
    choice: &mut Choices,
    class: Class,
    tree: &mut Vec<Operation>,
) -> Result<(), Closed> {
    let rank = u8::try_from(class.rank).unwrap_or(u8::MAX);
    append(tree, Operation::Split(rank, class.positions))?;
    if ground
        .opened(choice.kept(class.rank, class.positions))
        .is_some()
    {
        append(tree, Operation::Residue)?;
    }
    match ground.opened(choice.dropped(class.rank, class.positions)) {
        Some(open) => *choice = open,
        None => return Err(Closed::Refuted),
    }
    Ok(())
}

/// What remainders show of a choice: they refute it, or take positions from it. Whether they do.
fn show_remainders(
    ground: &Ground<'_>,
    ticks: TickSpan,
    choice: &mut Choices,
    tree: &mut Vec<Operation>,
) -> Result<bool, Closed> {
    if ground.is_missed(ticks, choice) {
        append(tree, Operation::Residue)?;
        return Err(Closed::Refuted);
    }
    let mut taken = false;
    for _ in 0..64 {
        let Some(class) = forbidden_class(ground.load, ticks, choice.sets()) else {
            break;
        };
        split_off(ground, choice, class, tree)?;
        taken = true;
    }
    Ok(taken)
}

/// What becomes of a choice of one path.
fn settle(ground: &Ground<'_>, ticks: TickSpan, choice: &Choices) -> Closed {
    let path = firsts(choice);
    match sound_index(ground.load, path.as_slice()) {
        Some(index) if ticks.distance_to(index) == 0 => Closed::Found(path),
        _ => Closed::Stuck,
    }
}

/// Adds a choice that is left to close.
fn add(left: &mut Vec<Choices>, choice: Choices) -> Result<(), NoMemory> {
    left.push(choice)?;
    Ok(())
}

/// Splits a choice in two that are left to close.
fn split(
    ground: &Ground<'_>,
    ticks: TickSpan,
    choice: &Choices,
    tree: &mut Vec<Operation>,
    left: &mut Vec<Choices>,
) -> Result<(), Closed> {
    let Some(cut) = ground.closing_cut(choice) else {
        return Err(settle(ground, ticks, choice));
    };
    let rank = u8::try_from(cut.rank).unwrap_or(u8::MAX);
    append(tree, Operation::Split(rank, cut.first))?;
    if let Some(other) = ground.opened(choice.dropped(cut.rank, cut.first)) {
        add(left, other)?;
    }
    if let Some(first) = ground.opened(choice.kept(cut.rank, cut.first)) {
        add(left, first)?;
    }
    Ok(())
}

impl Closing {
    /// What closes choices of a task, in so many steps together.
    pub fn of(ground: &Ground<'_>, ledger: &mut Ledger, steps: u32) -> Result<Closing, NoMemory> {
        let (alloc, load) = (ground.alloc, ground.load);
        Ok(Closing {
            free: Pair {
                low: free(alloc, load, End::Low, ledger.next_serial()?)?,
                high: free(alloc, load, End::High, ledger.next_serial()?)?,
            },
            bars: Bars::of(ground)?,
            steps,
        })
    }

    /// What given prices, and none, show of a choice. Whether they take positions from it.
    fn show_prices(
        &self,
        ground: &Ground<'_>,
        ticks: TickSpan,
        ledger: &mut Ledger,
        from: &Pair,
        choice: &mut Choices,
        tree: &mut Vec<Operation>,
    ) -> Result<bool, Closed> {
        let low = show(ground, ticks, ledger, &from.low, choice, tree)?;
        let high = show(ground, ticks, ledger, &from.high, choice, tree)?;
        let above = show(ground, ticks, ledger, &self.free.low, choice, tree)?;
        let below = show(ground, ticks, ledger, &self.free.high, choice, tree)?;
        Ok(low || high || above || below)
    }

    /// All that is seen of a choice, until nothing more is.
    fn look(
        &mut self,
        ground: &Ground<'_>,
        ticks: TickSpan,
        ledger: &mut Ledger,
        from: &Pair,
        choice: &mut Choices,
        tree: &mut Vec<Operation>,
    ) -> Result<(), Closed> {
        for _ in 0..MOST_ROUNDS {
            let by_prices = self.show_prices(ground, ticks, ledger, from, choice, tree)?;
            let by_limits = self.bars.show(ground, ticks, ledger, choice, tree)?;
            let by_remainders = show_remainders(ground, ticks, choice, tree)?;
            if !by_prices && !by_limits && !by_remainders {
                break;
            }
        }
        Ok(())
    }

    /// Looks at a choice, and splits what is left of it.
    fn step(
        &mut self,
        ground: &Ground<'_>,
        ticks: TickSpan,
        ledger: &mut Ledger,
        from: &Pair,
        left: &mut Vec<Choices>,
        tree: &mut Vec<Operation>,
    ) -> Result<(), Closed> {
        self.steps = self.steps.saturating_sub(1);
        let Some(mut choice) = left.pop() else {
            return Ok(());
        };
        self.look(ground, ticks, ledger, from, &mut choice, tree)?;
        split(ground, ticks, &choice, tree, left)
    }

    /// The operations that refute a choice, by given prices. None where they are not found in the steps that there are.
    pub fn close(
        &mut self,
        ground: &Ground<'_>,
        ticks: TickSpan,
        ledger: &mut Ledger,
        from: &Pair,
        choice: &Choices,
    ) -> Result<Option<Vec<Operation>>, Closed> {
        let mut tree = Vec::new(ground.alloc);
        let mut left = Vec::new(ground.alloc);
        add(&mut left, choice.copy())?;
        for _ in 0..MOST_STEPS.min(self.steps) {
            if left.is_empty() {
                return Ok(Some(tree));
            }
            match self.step(ground, ticks, ledger, from, &mut left, &mut tree) {
                Ok(()) | Err(Closed::Refuted) => {}
                Err(Closed::Stuck) => return Ok(None),
                Err(other) => return Err(other),
            }
        }
        Ok(None)
    }
}
