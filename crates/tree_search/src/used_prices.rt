//! The lists of prices that the operations of a certificate name.

use base_words::NoMemory;
use std::alloc::Global;
use tree_certificate::{Operation, PriceList, Sibling};

/// The number of the list that an operation names.
fn named_by(operation: &Operation) -> Option<usize> {
    match operation {
        Operation::Leaf(list) | Operation::Narrow(list) => Some(*list as usize),
        Operation::Residue | Operation::Split(_, _) => None,
    }
}

/// Notes the lists that operations name.
fn note_used(used: &mut [bool], operations: &[Operation]) {
    for operation in operations {
        if let Some(list) = named_by(operation) {
            if let Some(place) = used.get_mut(list) {
                *place = true;
            }
        }
    }
}

/// For each list how many of those before it are used.
fn new_numbers(alloc: Global, used: &[bool]) -> Result<Vec<u32>, NoMemory> {
    let mut numbers = Vec::new(alloc);
    let mut count: u32 = 0;
    for is_used in used {
        numbers.push(count)?;
        count = count.saturating_add(u32::from(*is_used));
    }
    Ok(numbers)
}

/// The new number of a list.
fn new_number(numbers: &[u32], list: u32) -> u32 {
    match numbers.get(list as usize) {
        Some(number) => *number,
        None => list,
    }
}

/// The operation with the new number of its list.
fn renumbered(numbers: &[u32], operation: Operation) -> Operation {
    match operation {
        Operation::Leaf(list) => Operation::Leaf(new_number(numbers, list)),
        Operation::Narrow(list) => Operation::Narrow(new_number(numbers, list)),
        Operation::Residue | Operation::Split(_, _) => operation,
    }
}

fn renumber(numbers: &[u32], operations: &mut [Operation]) {
    for operation in operations.iter_mut() {
        *operation = renumbered(numbers, *operation);
    }
}

/// The lists that are used.
fn kept(alloc: Global, lists: Vec<PriceList>, used: &[bool]) -> Result<Vec<PriceList>, NoMemory> {
    let mut kept = Vec::new(alloc);
    for (list, is_used) in lists.into_iter().zip(used) {
        if *is_used {
            kept.push(list)?;
        }
    }
    Ok(kept)
}

/// The lists that the operations name. The operations then have their numbers among these.
pub fn used_prices(
    alloc: Global,
    lists: Vec<PriceList>,
    root: &mut [Operation],
    siblings: &mut [Sibling],
) -> Result<Vec<PriceList>, NoMemory> {
    let mut used = vec![in alloc; false; lists.len()]?;
    note_used(used.as_mut_slice(), root);
    for sibling in siblings.iter() {
        note_used(used.as_mut_slice(), sibling.operations.as_slice());
    }
    let numbers = new_numbers(alloc, used.as_slice())?;
    renumber(numbers.as_slice(), root);
    for sibling in siblings.iter_mut() {
        renumber(numbers.as_slice(), sibling.operations.as_mut_slice());
    }
    kept(alloc, lists, used.as_slice())
}
