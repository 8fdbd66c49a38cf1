//! What is seen of a choice without a search: by given prices.

use crate::closed::Closed;
use crate::ground::Ground;
use crate::ledger::Ledger;
use base_words::NoMemory;
use finder_prices::Held;
use finder_tables::{Path, TickSpan};
use hold_choices::Choices;
use tree_certificate::Operation;

/// Appends an operation.
pub fn append(tree: &mut Vec<Operation>, operation: Operation) -> Result<(), NoMemory> {
    tree.push(operation)?;
    Ok(())
}

/// Appends operations.
pub fn append_all(tree: &mut Vec<Operation>, operations: &[Operation]) -> Result<(), NoMemory> {
    tree.extend_from_slice(operations)?;
    Ok(())
}

/// The path of the first position of each set.
pub fn firsts(choice: &Choices) -> Path {
    let mut path = Path::new();
    for set in choice.sets() {
        let _ = path.try_push(set.first().unwrap_or(0));
    }
    path
}

/// What prices show of a choice: they refute it, or take positions from it. Whether they do.
pub fn show(
    ground: &Ground<'_>,
    ticks: TickSpan,
    ledger: &mut Ledger,
    held: &Held,
    choice: &mut Choices,
    tree: &mut Vec<Operation>,
) -> Result<bool, Closed> {
    let load = ground.load;
    if held.passes(load, choice.sets(), ticks) {
        let list = ledger.number_of(ground.alloc, held)?;
        append(tree, Operation::Leaf(list))?;
        return Err(Closed::Refuted);
    }
    let trimmed = Choices::of(held.trimmed(load, choice.sets(), ticks));
    if trimmed.same(choice) {
        return Ok(false);
    }
    let list = ledger.number_of(ground.alloc, held)?;
    append(tree, Operation::Narrow(list))?;
    match ground.opened(trimmed) {
        Some(open) => *choice = open,
        None => return Err(Closed::Refuted),
    }
    Ok(true)
}
