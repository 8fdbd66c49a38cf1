//! The load that what the lines say makes, or why it makes none.

ghost use Rattle.std.specs.Prelude.{◌≡◌, ◌∷◌, ℕ, List, Option, All, map, zip, IfOk, IfErr, IfSome, MatchResult};
ghost use Rattle.hold_limits.specs.Faults.{IsLawful};
ghost use Rattle.hold_limits.specs.Problem.{Problem};
ghost use Rattle.problem_text.specs.Reading.{IsFaultOf};
ghost use Rattle.problem_text.specs.declared.fault.TextFault.{TextFault};
ghost use Rattle.stop_tasks.specs.StopFaults.{AreLawfulStops};
ghost use Rattle.stop_tasks.specs.Stops.{stops_of};
ghost use Rattle.hold_parts.specs.declared.parts.Item.{Item};
ghost use Rattle.stop_text.specs.declared.parts.Leave.{Leave};
ghost use Rattle.std.specs.List.{list_all};
ghost use Rattle.stop_text.specs.StopFile.{has_id, StopFile, are_ids, leaves_of, place_named, places_named, stops_of_file, sectors_of, third_sector};
ghost use Rattle.stop_text.specs.StopRefusals.{IsLoadFault};
ghost use Rattle.stop_text.specs.Reading.{ArePartsOf, IsSectorOf, IsThirdOf, IsThirdFault, AreTasksOf, IsTaskFault, IsFaultOfLoad, load_with};
ghost use Rattle.stop_text.specs.declared.fault.StopTextFault.{StopTextFault};

use crate::fault::StopTextFault;
use crate::parts::{Leave, Parts, Sector, Tasks};
use base_words::NoMemory;
use hold_limits::{Item, Name, Position, Task};
use hold_parts::PositionNames;
use std::alloc::Global;
use stop_tasks::StopTask;

/// Whether the line names the container.
fn has_id(item: &Item, leave: &Leave) -> bool
    ensures { result ≡ has_id (item.now, leave.now) }
{
    item.id.bytes() == leave.id.bytes()
}

/// Whether each line names the container at its place, as far as there are both.
fn have_ids(items: &[Item], leaves: &[Leave]) -> bool
    ensures { result ≡ list_all has_id (zip items.now leaves.now) }
{
    items
        .iter()
        .zip(leaves)
        .all(|(item, leave)| has_id(item, leave))
}

/// Whether the lines name the containers, each once, in the order of the offer.
fn are_ids(items: &[Item], leaves: &[Leave]) -> bool
    ensures { result ≡ are_ids items.now leaves.now }
{
    items.len() == leaves.len() && have_ids(items, leaves)
}

/// The last sectors of the containers, and the one number 0 where the lines name others.
fn leaves_of(alloc: Global, items: &[Item], leaves: &[Leave]) -> Result<Vec<u8>, NoMemory>
    ensures { IfOk result (λ numbers. numbers.items ≡ leaves_of items.now leaves.now) }
{
    let mut numbers = Vec::new(alloc);
    if !are_ids(items, leaves) {
        numbers.push(0)?;
        return Ok(numbers);
    }
    for leave in leaves {
        numbers.push(leave.sector)?;
    }
    Ok(numbers)
}

/// The number of the position with this name, and 255 where there is none.
fn place_named(names: &PositionNames<'_>, name: &Name) -> u8
    ensures { result ≡ place_named names.now.positions.now name.now }
{
    match names.number_of(name.bytes()) {
        Some(number) => u8::try_from(number).unwrap_or(u8::MAX),
        None => u8::MAX,
    }
}

/// The pairs of positions with these names.
fn places_of(
    alloc: Global,
    positions: &[Position],
    behind: &[(Name, Name)],
) -> Result<Vec<(u8, u8)>, NoMemory>
    ensures { IfOk result (λ pairs. pairs.items ≡ map (places_named positions.now) behind.now) }
{
    let names = PositionNames::new(alloc, positions)?;
    let mut pairs = Vec::new(alloc);
    for pair in behind {
        pairs.push((place_named(&names, &pair.0), place_named(&names, &pair.1)))?;
    }
    Ok(pairs)
}

/// The task of the sector with this number.
fn task_of(number: usize, sector: Sector) -> Result<Task, StopTextFault>
    ensures { (t : Problem) → IsSectorOf t sector → MatchResult result (λ task. (task ≡ t) × IsLawful t)
        (λ fault. (told : TextFault) × (fault ≡ StopTextFault.Task number told) × IsFaultOf t told) }
{
    match sector {
        Sector::Lawful(task) => Ok(task),
        Sector::Faulty(fault) => Err(StopTextFault::Task(number, fault)),
    }
}

/// The task of the third sector, where there is one.
fn third_of(sector: Option<Sector>) -> Result<Option<Task>, StopTextFault>
    ensures { (t : Option Problem) → IsThirdOf t sector → MatchResult result (λ task. (task ≡ t) × IfSome t IsLawful)
        (λ fault. IsThirdFault t fault) }
{
    match sector {
        None => Ok(None),
        Some(sector) => Ok(Some(task_of(3, sector)?)),
    }
}

/// The tasks in their order.
fn in_order(alloc: Global, tasks: Tasks) -> Result<Vec<Task>, NoMemory>
    ensures { IfOk result (λ list. list.items ≡ tasks.first ∷ tasks.second ∷ third_sector tasks.third) }
{
    let mut list = Vec::new(alloc);
    list.push(tasks.first)?;
    list.push(tasks.second)?;
    if let Some(third) = tasks.third {
        list.push(third)?;
    }
    Ok(list)
}

/// The tasks of the sectors, or the first fault of one.
fn tasks_of(first: Sector, second: Sector, third: Option<Sector>) -> Result<Tasks, StopTextFault>
    ensures { (a : Problem) (b : Problem) (c : Option Problem) → IsSectorOf a first → IsSectorOf b second → IsThirdOf c third
        → MatchResult result (AreTasksOf a b c) (IsTaskFault (a ∷ b ∷ third_sector c)) }
{
    Ok(Tasks {
        first: task_of(1, first)?,
        second: task_of(2, second)?,
        third: third_of(third)?,
    })
}

/// The load with these parts.
fn with_parts(
    sectors: Vec<Task>,
    leaves: Vec<u8>,
    behind: Vec<(u8, u8)>,
) -> Result<StopTask, StopTextFault>
    ensures made { IfOk result (λ t. (t ≡ stops_of sectors.items leaves.items behind.items) × AreLawfulStops t) }
    ensures refused { IfErr result (IsFaultOfLoad (stops_of sectors.items leaves.items behind.items)) }
{
    StopTask::new(sectors, leaves, behind).map_err(StopTextFault::Stop)
}

/// The load of these tasks that the lines say.
fn assembled(
    alloc: Global,
    tasks: Tasks,
    leaves: &[Leave],
    behind: &[(Name, Name)],
) -> Result<StopTask, StopTextFault>
    ensures made { IfOk result (λ t. (t ≡ load_with tasks leaves.now behind.now) × AreLawfulStops t) }
    ensures refused { IfErr result (IsFaultOfLoad (load_with tasks leaves.now behind.now)) }
{
    let leaves = leaves_of(alloc, tasks.first.items(), leaves)?;
    let behind = places_of(alloc, tasks.first.hold().positions(), behind)?;
    let sectors = in_order(alloc, tasks)?;
    with_parts(sectors, leaves, behind)
}

/// The load that what the lines say makes.
pub fn load_of(alloc: Global, parts: Parts) -> Result<StopTask, StopTextFault>
    ensures { (file : StopFile) → ArePartsOf file parts → MatchResult result
        (λ t. (t ≡ stops_of_file file) × AreLawfulStops t × All IsLawful (sectors_of file)) (IsLoadFault file) }
{
    let Parts {
        leaves,
        behind,
        first,
        second,
        third,
    } = parts;
    let tasks = tasks_of(first, second, third)?;
    assembled(alloc, tasks, leaves.as_slice(), behind.as_slice())
}
