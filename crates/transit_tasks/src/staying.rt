//! The task of placing an offer around what stays aboard.

ghost use Rattle.std.specs.Prelude.{◌≡◌, ◌≢◌, ◌↔◌, ℕ, List, [], map, IfOk, IfErr, None, Some};
ghost use Rattle.hold_limits.specs.Faults.{IsLawful};
ghost use Rattle.hold_limits.specs.Placement.{IsAdmissible, hold_index};
ghost use Rattle.ldm_cpm.specs.Reading.{placing_said};
ghost use Rattle.transit_tasks.specs.Joined.{IsJoinedAdmissible, joined_index};
ghost use Rattle.transit_tasks.specs.NewTask.{hold_around, loads_around, task_around};
ghost use Rattle.transit_tasks.specs.Staying.{staying_containers};
ghost use Rattle.transit_tasks.specs.TransitFaults.{first_place_fault, transit_fault};
ghost use Rattle.transit_tasks.specs.declared.fault.TransitFault.{TransitFault};

use crate::around::{hold_around, loads_around};
use crate::fault::TransitFault;
use crate::places::first_place_fault;
use base_words::NoMemory;
use hold_limits::{Hold, Item, Loose, Task};
use ldm_cpm::CpmPlace;
use std::alloc::Global;

/// The task of placing the offer around what stays. A path is admissible for it exactly where it is admissible together
/// with what stays, at the same hold index.
///
/// Refused for the first wrong place, or else for the first fault of the new task.
pub fn with_staying(alloc: Global, task: &Task, stay: &[CpmPlace<'_>]) -> Result<Task, TransitFault>
    ensures made { IfOk result (λ t. t ≡ task_around task.now (map placing_said stay.now)) }
    ensures right { IfOk result (λ _. transit_fault task.now (map placing_said stay.now) ≡ None) }
    ensures admissible { IfOk result (λ t. (path : List ℕ)
        → IsAdmissible t path ↔ IsJoinedAdmissible task.now (map placing_said stay.now) path) }
    ensures index { IfOk result (λ t. (path : List ℕ)
        → hold_index t path ≡ joined_index task.now (map placing_said stay.now) path) }
    ensures refused { IfErr result (λ fault. fault ≢ TransitFault.NoMemory
        → transit_fault task.now (map placing_said stay.now) ≡ Some fault) }
{
    match first_place_fault(task, stay) {
        Some(fault) => Err(fault),
        None => task_around(alloc, task, stay),
    }
}

/// The task around places of which none is wrong.
fn task_around(alloc: Global, task: &Task, stay: &[CpmPlace<'_>]) -> Result<Task, TransitFault>
    requires { first_place_fault task.now [] (map placing_said stay.now) ≡ None }
    ensures made { IfOk result (λ t. t ≡ task_around task.now (map placing_said stay.now)) }
    ensures right { IfOk result (λ _. transit_fault task.now (map placing_said stay.now) ≡ None) }
    ensures admissible { IfOk result (λ t. (path : List ℕ)
        → IsAdmissible t path ↔ IsJoinedAdmissible task.now (map placing_said stay.now) path) }
    ensures index { IfOk result (λ t. (path : List ℕ)
        → hold_index t path ≡ joined_index task.now (map placing_said stay.now) path) }
    ensures refused { IfErr result (λ fault. fault ≢ TransitFault.NoMemory
        → transit_fault task.now (map placing_said stay.now) ≡ Some fault) }
{
    let parts = parts_of(alloc, task, stay)?;
    let around = Task::new(
        parts.hold,
        parts.items,
        parts.loose,
        task.base(),
        task.low(),
        task.high(),
        task.ideal_low(),
        task.ideal_high(),
    )?;
    Ok(around)
}

/// The parts of a task that take memory.
#[derive(Drop)]
struct Parts {
    hold: Hold,
    items: Vec<Item>,
    loose: Vec<Loose>,
}

fn parts_of(alloc: Global, task: &Task, stay: &[CpmPlace<'_>]) -> Result<Parts, NoMemory>
    ensures hold { IfOk result (λ parts. parts.hold ≡ hold_around task.now.hold
        (staying_containers task.now.hold.positions (map placing_said stay.now))) }
    ensures items { IfOk result (λ parts. parts.items.items ≡ task.now.items) }
    ensures loose { IfOk result (λ parts. parts.loose.items ≡ loads_around task.now (map placing_said stay.now)) }
{
    Ok(Parts {
        hold: hold_around(alloc, task.hold(), stay)?,
        items: task.items().to_vec(alloc)?,
        loose: loads_around(alloc, task, stay)?,
    })
}
