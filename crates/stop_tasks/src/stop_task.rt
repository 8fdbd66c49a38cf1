//! Loads over several sectors.

ghost use Rattle.std.specs.Prelude.{◌≡◌, IfOk, IfErr};
ghost use Rattle.stop_tasks.specs.Stops.{stops_of};
ghost use Rattle.stop_tasks.specs.StopFaults.{AreLawfulStops, IsStopFault};
ghost use Rattle.stop_tasks.specs.StopPaths.{IsFirstSector, last_sectors};
ghost use Rattle.hold_limits.specs.Problem.{Problem};

use crate::fault::StopFault;
use crate::paths::last_of;
use crate::stop_faults::fault_of_stops;
use arrayvec::ArrayVec;
use hold_limits::Task;
use std::marker::Model;

/// A lawful load over two or three sectors: the task of each sector, the last sector of each container of the first
/// one, in the order of the offer, and pairs of positions of which the second is behind the first.
#[derive(Debug, Drop)]
pub struct StopTask {
    sectors: Vec<Task>,
    leaves: Vec<u8>,
    behind: Vec<(u8, u8)>,
}

impl Model for StopTask {
    ghost use Rattle.stop_tasks.specs.Stops.{Stops, stops_of};

    ghost Value = { Stops };

    ghost view = { λ t. stops_of t.sectors.items t.leaves.items t.behind.items };

    ghost use Rattle.stop_tasks.specs.StopFaults.{AreLawfulStops};

    ghost invariant = { λ t. AreLawfulStops (stops_of t.sectors.items t.leaves.items t.behind.items) };
}

impl StopTask {
    /// The load with these parts, refused by the first fault.
    pub fn new(
        sectors: Vec<Task>,
        leaves: Vec<u8>,
        behind: Vec<(u8, u8)>,
    ) -> Result<StopTask, StopFault>
        ensures made { IfOk result (λ t. t ≡ stops_of sectors.items leaves.items behind.items) }
        ensures lawful { IfOk result AreLawfulStops }
        ensures refused { IfErr result (IsStopFault (stops_of sectors.items leaves.items behind.items)) }
    {
        match fault_of_stops(sectors.as_slice(), leaves.as_slice(), behind.as_slice()) {
            Some(fault) => Err(fault),
            None => Ok(StopTask {
                sectors,
                leaves,
                behind,
            }),
        }
    }

    /// The task of the first sector, which loads every container.
    pub fn first(&self) -> &Task
        ensures value { IsFirstSector self.now result.now }
        ensures lawful { AreLawfulStops self.now }
    {
        &self.sectors()[0]
    }

    /// The last sectors of the first task's containers, in branch order.
    pub fn last_sectors(&self) -> ArrayVec<u8, 60>
        ensures { (first : Problem) → IsFirstSector self.now first → result.items ≡ last_sectors self.now first }
    {
        last_of(self.leaves(), self.first().order())
    }

    /// The tasks of the sectors, in the order in which they are flown.
    pub fn sectors(&self) -> &[Task]
        ensures value { result.now ≡ self.now.sectors }
        ensures lawful { AreLawfulStops self.now }
    {
        self.sectors.as_slice()
    }

    /// The last sector of each container of the first one, in the order of the offer, from 1.
    pub fn leaves(&self) -> &[u8]
        ensures value { result.now ≡ self.now.leaves }
        ensures lawful { AreLawfulStops self.now }
    {
        self.leaves.as_slice()
    }

    /// The pairs of positions of which the second is behind the first.
    pub fn behind(&self) -> &[(u8, u8)]
        ensures value { result.now ≡ self.now.behind }
        ensures lawful { AreLawfulStops self.now }
    {
        self.behind.as_slice()
    }
}
