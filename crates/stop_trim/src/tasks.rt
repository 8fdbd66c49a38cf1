//! The task of each sector.

ghost use Rattle.std.specs.Prelude.{All, IfOk, IfErr};
ghost use Rattle.trim.specs.Limits.{KeepsLimits};
ghost use Rattle.trim.specs.Refusals.{IsTaskOf};
ghost use Rattle.stop_trim.specs.Sectors.{AreTasksOf};
ghost use Rattle.stop_trim.specs.Refusals.{IsSectorFault, IsTrimFault};

use crate::fault::StopTrim;
use aircraft_file::Aircraft;
use hold_limits::Task;
use std::alloc::Global;
use trim::{Figures, TrimFault, task_of};

/// The task of these figures, which are those of the sector with this number.
fn task_on(alloc: Global, a: &Aircraft, f: &Figures, number: usize) -> Result<Task, StopTrim>
    requires { KeepsLimits f.now }
    ensures task { IfOk result (IsTaskOf a.now f.now) }
    ensures refused { IfErr result (IsSectorFault a.now f.now number) }
{
    match task_of(alloc, a, f) {
        Ok(task) => Ok(task),
        Err(TrimFault::NoMemory) => Err(StopTrim::NoMemory),
        Err(fault) => Err(StopTrim::Trim(number, fault)),
    }
}

/// The tasks of the sectors' figures, in their order.
pub fn tasks_of(alloc: Global, a: &Aircraft, sectors: &[Figures]) -> Result<Vec<Task>, StopTrim>
    requires { All KeepsLimits sectors.now }
    ensures tasks { IfOk result (λ tasks. AreTasksOf a.now sectors.now tasks.items) }
    ensures refused { IfErr result (IsTrimFault a.now sectors.now) }
{
    let mut tasks = Vec::new(alloc);
    for place in 0..sectors.len() {
        let task = task_on(alloc, a, &sectors[place], place + 1)?;
        if tasks.push(task).is_err() {
            return Err(StopTrim::NoMemory);
        }
    }
    Ok(tasks)
}
