//! The load over several sectors.

ghost use Rattle.std.specs.Prelude.{◌↔◌, ℕ, List, All, IfOk, IfErr};
ghost use Rattle.stop_tasks.specs.StopFaults.{AreLawfulStops};
ghost use Rattle.stop_tasks.specs.StopPaths.{IsStopAdmissible};
ghost use Rattle.trim.specs.Limits.{KeepsLimits};
ghost use Rattle.stop_trim.specs.Sectors.{IsLoadOf, IsStopFlyable};
ghost use Rattle.stop_trim.specs.Refusals.{IsRefusedLoad};

use crate::fault::StopTrim;
use crate::tasks::tasks_of;
use aircraft_file::Aircraft;
use std::alloc::Global;
use stop_tasks::StopTask;
use trim::Figures;

/// The load over the sectors of a flight by one aircraft, from the figures of each sector, in the order in which they
/// are flown. `leaves` has the last sector of each container of the first one, from 1, in the order of the offer, and
/// the second position of each pair of `behind` is behind the first.
///
/// A path is admissible for the load exactly where it can be unloaded at each stop and, on each sector, what is still
/// aboard is admissible for the flight. Refused for the first sector whose figures make no task, or else for the first
/// fault of the load.
pub fn stop_task_of(
    alloc: Global,
    a: &Aircraft,
    sectors: &[Figures],
    leaves: Vec<u8>,
    behind: Vec<(u8, u8)>,
) -> Result<StopTask, StopTrim>
    requires { All KeepsLimits sectors.now }
    ensures made { IfOk result (IsLoadOf a.now sectors.now leaves.items behind.items) }
    ensures lawful { IfOk result AreLawfulStops }
    ensures admissible { IfOk result (λ t. (path : List ℕ)
        → IsStopAdmissible t path ↔ IsStopFlyable a.now sectors.now leaves.items behind.items path) }
    ensures refused { IfErr result (IsRefusedLoad a.now sectors.now leaves.items behind.items) }
{
    let tasks = tasks_of(alloc, a, sectors)?;
    match StopTask::new(tasks, leaves, behind) {
        Ok(t) => Ok(t),
        Err(fault) => Err(StopTrim::Stop(fault)),
    }
}
