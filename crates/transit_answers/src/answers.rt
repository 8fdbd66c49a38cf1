//! The answers to questions about a flight in transit.

ghost use Rattle.std.specs.Prelude.{◌≡◌, ◌++◌, ℕ, List, IfOk};
ghost use Rattle.hold_limits.specs.Placement.{IsSound};
ghost use Rattle.transit_answers.specs.TransitReply.{transit_of, IsKept, IsOnward, IsTransitPlacing, IsTextAround, IsTransitAnswer};

use crate::flight::InTransit;
use base_words::NoMemory;
use flight_state::Station;
use hold_limits::Path;
use placer::{Answer, Placing};
use problem_text::write_task;
use std::alloc::Global;
use task_answers::{Outcome, Reply, reply_to};
use transit_messages::write_onward;

/// What is asked about a flight in transit.
#[derive(Clone, Copy, Debug)]
pub enum TransitQuestion {
    /// The best placement around what stays, and the message with which the flight goes on. The budget is how many near
    /// prefixes the search may look at.
    BestPlan { budget: u32 },
    /// The task around what stays.
    TaskAround,
}

/// Appends the message with which the flight goes on to the next station, where the path places the offer.
fn push_onward(
    alloc: Global,
    flight: &InTransit<'_>,
    next: &Station,
    path: &Path,
    text: &mut Vec<u8>,
) -> Result<(), NoMemory>
    requires kept { IsKept flight.now }
    requires sound { IsSound flight.now.around path.now.items }
    ensures { IfOk result (λ _. (message : List ℕ) × (text.new.items ≡ text.old.items ++ message)
        × IsOnward (transit_of flight.now) next.now path.now.items message) }
{
    let stay = flight.stay.as_slice();
    let message = write_onward(alloc, flight.head, flight.task, stay, path, next.bytes())?;
    text.extend_from_slice(message.as_slice())?;
    Ok(())
}

/// The best placement of the task around what stays, and behind a plan the message with which the flight goes on.
fn placing_in_transit<P: Placing>(
    alloc: Global,
    flight: &InTransit<'_>,
    next: &Station,
    budget: u32,
    placing: &P,
) -> Result<Reply, NoMemory>
    requires kept { IsKept flight.now }
    ensures { IfOk result (λ reply.
        IsTransitPlacing (transit_of flight.now) next.now budget reply.outcome reply.text.items) }
{
    let answer = placing.place(alloc, &flight.around, budget)?;
    let mut reply = reply_to(alloc, &flight.around, &answer)?;
    match &answer {
        Answer::Best(proven) => {
            push_onward(alloc, flight, next, proven.path(), &mut reply.text)?;
            Ok(reply)
        }
        Answer::NoneFits(_) => Ok(reply),
        Answer::Budget(_) => Ok(reply),
    }
}

/// The text of the task around what stays.
fn text_around(alloc: Global, flight: &InTransit<'_>) -> Result<Vec<u8>, NoMemory>
    requires kept { IsKept flight.now }
    ensures { IfOk result (λ text. IsTextAround (transit_of flight.now) text.items) }
{
    let _lawful = flight.around.items();
    write_task(alloc, &flight.around)
}

/// The answer to a question about a flight in transit that goes on to the next station. The only error is that memory
/// ran out.
pub fn answer_in_transit<P: Placing>(
    alloc: Global,
    flight: &InTransit<'_>,
    next: &Station,
    question: TransitQuestion,
    placing: &P,
) -> Result<Reply, NoMemory>
    requires kept { IsKept flight.now }
    ensures { IfOk result (λ reply.
        IsTransitAnswer (transit_of flight.now) next.now question reply.outcome reply.text.items) }
{
    match question {
        TransitQuestion::BestPlan { budget } => {
            placing_in_transit(alloc, flight, next, budget, placing)
        }
        TransitQuestion::TaskAround => Ok(Reply {
            outcome: Outcome::Done,
            text: text_around(alloc, flight)?,
        }),
    }
}
