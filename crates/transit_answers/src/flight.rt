//! Flights in transit.

ghost use Rattle.std.specs.Prelude.{◌≢◌, IfOk, IfErr};
ghost use Rattle.ldm_cpm.specs.Messages.{IsSpelledCpm, IsSpelledLdm};
ghost use Rattle.ldm_cpm.specs.Reading.{cpm_said, ldm_said};
ghost use Rattle.transit_tasks.specs.declared.fault.TransitFault.{TransitFault};
ghost use Rattle.transit_answers.specs.Flights.{IsTransitIn, IsTransitFault};
ghost use Rattle.transit_answers.specs.TransitReply.{transit_of, IsKept};

use flight_state::Station;
use hold_limits::Task;
use ldm_cpm::{Cpm, CpmPlace, Head, Ldm};
use std::alloc::Global;
use transit_messages::{agree, staying};
use transit_tasks::{TransitFault, with_staying};

/// A flight that came in with something for later stations, which stays where it is.
#[derive(Debug, Drop)]
pub struct InTransit<'a> {
    /// The head of the inbound container message.
    pub head: &'a Head<'a>,
    /// The task of placing what is offered.
    pub task: &'a Task,
    /// What stays aboard, in the order of the inbound message.
    pub stay: Vec<CpmPlace<'a>>,
    /// The task around what stays.
    pub around: Task,
}

impl<'a> InTransit<'a> {
    /// The flight in transit that the task and the two inbound messages state at a station. Refused where the messages
    /// do not agree, or else where what goes on behind the station cannot stay.
    pub fn new(
        alloc: Global,
        task: &'a Task,
        cpm: &'a Cpm<'a>,
        ldm: &Ldm<'_>,
        station: &Station,
    ) -> Result<InTransit<'a>, TransitFault>
        requires cpm { IsSpelledCpm (cpm_said cpm.now) }
        requires ldm { IsSpelledLdm (ldm_said ldm.now) }
        ensures stated { IfOk result (λ flight.
            IsTransitIn station.now task.now (cpm_said cpm.now) (ldm_said ldm.now) (transit_of flight)) }
        ensures kept { IfOk result IsKept }
        ensures refused { IfErr result (λ fault. fault ≢ TransitFault.NoMemory
            → IsTransitFault station.now task.now (cpm_said cpm.now) (ldm_said ldm.now) fault) }
    {
        agree(ldm, cpm)?;
        let stay = staying(alloc, cpm, station.bytes())?;
        let around = with_staying(alloc, task, stay.as_slice())?;
        Ok(InTransit {
            head: &cpm.head,
            task,
            stay,
            around,
        })
    }
}
