//! Reading the files of a flight in transit, and answering a question about it.

ghost use Rattle.std.specs.Prelude.{◌≡◌, ◌≢◌, ◌≤◌, Err, IfOk, IfErr, IfSome, length};
ghost use Rattle.base_words.specs.Faults.{Rose};
ghost use Rattle.ldm_cpm.specs.Messages.{IsSpelledCpm, IsSpelledLdm};
ghost use Rattle.ldm_cpm.specs.Reading.{cpm_said, ldm_said};
ghost use Rattle.transit_answers.specs.Limits.{longest_message};
ghost use Rattle.transit_answers.specs.Flights.{Transit, IsTransitIn};
ghost use Rattle.transit_answers.specs.MessageFiles.{IsCpmIn, IsLdmIn, IsCpmRefusal, IsLdmRefusal, IsTransitRefusal};
ghost use Rattle.transit_answers.specs.TransitReply.{transit_of, IsKept, IsTransitAnswer};
ghost use Rattle.plan_commands.specs.Arguments.Job.{transit};
ghost use Rattle.plan_commands.specs.Commands.{names_of};
ghost use Rattle.plan_commands.specs.Halts.{IfBadInput};
ghost use Rattle.plan_commands.specs.Reply.{IsAnswerOver, IsAnswered, IsBadInputOver};

use crate::arguments::TransitNames;
use crate::ending::Halt;
use crate::files::{bytes_from, task_from};
use flight_state::Station;
use hold_limits::Task;
use ldm_cpm::{Cpm, Ldm, read_cpm, read_ldm};
use load_io::Shelf;
use placer::Placing;
use plan_answers::Reply;
use std::alloc::Global;
use transit_answers::{
    InTransit, LONGEST_MESSAGE, TransitQuestion, answer_in_transit, line_of_message_fault,
    line_of_transit_fault,
};

/// The container message that the bytes of a file are.
fn cpm_of<'a>(alloc: Global, bytes: &'a [u8]) -> Result<Cpm<'a>, Halt>
    requires { length bytes.now ≤ longest_message }
    ensures read { IfOk result (λ cpm. IsCpmIn bytes.now (cpm_said cpm)) }
    ensures refused { IfErr result (λ halt. IfBadInput halt (IsCpmRefusal bytes.now)) }
    ensures unread { result ≢ Err Halt.ReadFault }
{
    match read_cpm(alloc, bytes) {
        Ok(cpm) => Ok(cpm),
        Err(fault) => Err(Halt::BadInput(line_of_message_fault(alloc, b"CPM", fault)?)),
    }
}

/// The load message that the bytes of a file are.
fn ldm_of<'a>(alloc: Global, bytes: &'a [u8]) -> Result<Ldm<'a>, Halt>
    requires { length bytes.now ≤ longest_message }
    ensures read { IfOk result (λ ldm. IsLdmIn bytes.now (ldm_said ldm)) }
    ensures refused { IfErr result (λ halt. IfBadInput halt (IsLdmRefusal bytes.now)) }
    ensures unread { result ≢ Err Halt.ReadFault }
{
    match read_ldm(alloc, bytes) {
        Ok(ldm) => Ok(ldm),
        Err(fault) => Err(Halt::BadInput(line_of_message_fault(alloc, b"LDM", fault)?)),
    }
}

/// The flight in transit that a task and two inbound messages state.
fn flight_of<'a>(
    alloc: Global,
    task: &'a Task,
    cpm: &'a Cpm<'a>,
    ldm: &Ldm<'_>,
    station: &Station,
) -> Result<InTransit<'a>, Halt>
    requires cpm { IsSpelledCpm (cpm_said cpm.now) }
    requires ldm { IsSpelledLdm (ldm_said ldm.now) }
    ensures stated { IfOk result (λ flight.
        IsTransitIn station.now task.now (cpm_said cpm.now) (ldm_said ldm.now) (transit_of flight)) }
    ensures kept { IfOk result IsKept }
    ensures refused { IfErr result (λ halt. IfBadInput halt
        (IsTransitRefusal station.now task.now (cpm_said cpm.now) (ldm_said ldm.now))) }
    ensures unread { result ≢ Err Halt.ReadFault }
{
    match InTransit::new(alloc, task, cpm, ldm, station) {
        Ok(flight) => Ok(flight),
        Err(fault) => Err(Halt::BadInput(line_of_transit_fault(alloc, fault)?)),
    }
}

/// The answer to a question about the flight in transit that a task and two inbound messages state.
fn answer_over<P: Placing>(
    alloc: Global,
    task: &Task,
    cpm: &Cpm<'_>,
    ldm: &Ldm<'_>,
    names: &TransitNames<'_>,
    question: TransitQuestion,
    placing: &P,
) -> Result<Reply, Halt>
    requires cpm { IsSpelledCpm (cpm_said cpm.now) }
    requires ldm { IsSpelledLdm (ldm_said ldm.now) }
    ensures answered { IfOk result (λ reply.
        (flight : Transit) × IsTransitIn names.now.station task.now (cpm_said cpm.now) (ldm_said ldm.now) flight
        × IsTransitAnswer flight names.now.next question reply.outcome reply.text.items) }
    ensures refused { IfErr result (λ halt. IfBadInput halt
        (IsTransitRefusal names.now.station task.now (cpm_said cpm.now) (ldm_said ldm.now))) }
    ensures unread { result ≢ Err Halt.ReadFault }
{
    let flight = flight_of(alloc, task, cpm, ldm, &names.station)?;
    Ok(answer_in_transit(alloc, &flight, &names.next, question, placing)?)
}

/// The answer to a question about the flight in transit that three files state. Each is judged before the next one is
/// read.
pub fn answer_in_transit_from<F: Shelf, P: Placing>(
    alloc: Global,
    shelf: &mut F,
    names: &TransitNames<'_>,
    question: TransitQuestion,
    placing: &P,
) -> Result<Reply, Halt>
    ensures answered { IfOk result (λ reply.
        IsAnswerOver (F.files shelf.old) (transit (names_of names.now) question) reply.outcome reply.text.items) }
    ensures answers { IfOk result (λ reply. IsAnswered reply.outcome) }
    ensures refused { IfErr result (λ halt. IfBadInput halt
        (IsBadInputOver (F.files shelf.old) (transit (names_of names.now) question))) }
    ensures counted { result ≡ Err Halt.ReadFault → Rose (F.faults shelf.old) (F.faults shelf.new) }
    ensures uncounted { result ≢ Err Halt.ReadFault → F.faults shelf.new ≡ F.faults shelf.old }
    ensures same { F.files shelf.new ≡ F.files shelf.old }
{
    let task = task_from(alloc, shelf, names.task)?;
    let cpm_bytes = bytes_from(alloc, shelf, names.cpm, LONGEST_MESSAGE)?;
    let cpm = cpm_of(alloc, cpm_bytes.as_slice())?;
    let ldm_bytes = bytes_from(alloc, shelf, names.ldm, LONGEST_MESSAGE)?;
    let ldm = ldm_of(alloc, ldm_bytes.as_slice())?;
    answer_over(alloc, &task, &cpm, &ldm, names, question, placing)
}
