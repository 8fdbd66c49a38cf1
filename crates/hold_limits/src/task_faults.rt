//! The tests of a task, in the order of its faults.

ghost use Rattle.std.specs.Prelude.{◌≡◌, position};
ghost use Rattle.hold_limits.specs.Problem.{problem_of};
ghost use Rattle.hold_limits.specs.Faults.{is_too_heavy, is_loose_misplaced, is_loose_too_heavy, is_over_mass, is_over_index, range_fault, item_fault, loose_fault, task_fault};

use crate::fault::TaskFault;
use crate::hold::Hold;
use crate::hold_faults::{MOST_MASS, is_position_bulk};
use hold_parts::{Indices, Item, Loose, Position, first_repeat};
use mass_units::{Kg, Ticks};

const MOST_ITEMS: usize = 60;

const MOST_INDEX: u64 = 1_000_000_000;

fn is_mass_over(mass: Kg) -> bool
    ensures { result ≡ is_over_mass mass }
{
    mass > MOST_MASS
}

fn heavy_item(items: &[Item]) -> Option<usize>
    ensures { result ≡ position is_too_heavy items.now }
{
    items.iter().position(|item| is_mass_over(item.mass))
}

fn fault_of_items(items: &[Item]) -> Option<TaskFault>
    ensures { result ≡ item_fault items.now }
{
    if items.len() > MOST_ITEMS {
        return Some(TaskFault::TooManyItems);
    }
    if let Some(place) = first_repeat(items) {
        return Some(TaskFault::DuplicateId(place));
    }
    heavy_item(items).map(TaskFault::ItemTooHeavy)
}

fn misplaced_loose(positions: &[Position], loose: &[Loose]) -> Option<usize>
    ensures { result ≡ position (is_loose_misplaced positions.now) loose.now }
{
    loose
        .iter()
        .position(|load| !is_position_bulk(positions, load.position))
}

fn heavy_loose(loose: &[Loose]) -> Option<usize>
    ensures { result ≡ position is_loose_too_heavy loose.now }
{
    loose.iter().position(|load| is_mass_over(load.mass))
}

fn fault_of_loose(positions: &[Position], loose: &[Loose]) -> Option<TaskFault>
    ensures { result ≡ loose_fault positions.now loose.now }
{
    if let Some(place) = misplaced_loose(positions, loose) {
        return Some(TaskFault::LooseNotBulk(place));
    }
    if let Some(place) = first_repeat(loose) {
        return Some(TaskFault::LooseTwice(place));
    }
    heavy_loose(loose).map(TaskFault::LooseTooHeavy)
}

fn is_index_over(index: Ticks) -> bool
    ensures { result ≡ is_over_index index.0 }
{
    index.0.unsigned_abs() > MOST_INDEX
}

fn fault_of_indices(indices: Indices) -> Option<usize>
    ensures { result ≡ range_fault indices.base.0 indices.window.low.0 indices.window.high.0 indices.ideal.low.0 indices.ideal.high.0 }
{
    if is_index_over(indices.base) {
        Some(1)
    } else if is_index_over(indices.window.low) {
        Some(2)
    } else if is_index_over(indices.window.high) {
        Some(3)
    } else if is_index_over(indices.ideal.low) {
        Some(4)
    } else if is_index_over(indices.ideal.high) {
        Some(5)
    } else if indices.ideal.high.0 < indices.ideal.low.0 {
        Some(6)
    } else {
        None
    }
}

/// The first fault of a task over this hold: the first kind that there is, at its first place in its list.
pub fn fault_of_task(
    hold: &Hold,
    items: &[Item],
    loose: &[Loose],
    indices: Indices,
) -> Option<TaskFault>
    ensures { result ≡ task_fault (problem_of hold.now items.now loose.now indices) }
{
    fault_of_items(items)
        .or_else(|| fault_of_loose(hold.positions(), loose))
        .or_else(|| fault_of_indices(indices).map(TaskFault::Range))
}
