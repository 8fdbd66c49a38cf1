//! What the program does for each command.

ghost use Rattle.std.specs.Prelude.{◌≡◌, ◌≢◌, Err, IfOk, IfErr};
ghost use Rattle.base_words.specs.Faults.{Rose};
ghost use Rattle.plan_commands.specs.Commands.{job_of};
ghost use Rattle.plan_commands.specs.Halts.{IfBadInput};
ghost use Rattle.plan_commands.specs.Reply.{IsAnswerOver, IsAnswered, IsBadInputOver};

use crate::arguments::Command;
use crate::ending::Halt;
use crate::files::{any_from, certificate_from, priced_from, stops_from, task_from};
use crate::transit_files::answer_in_transit_from;
use load_io::Shelf;
use placer::Placing;
use plan_answers::{
    Reply, judgement, judgement_of_any, judgement_of_prices, placement, placing_by_trees,
    placing_over_sectors, placing_with_prices, summary,
};
use plan_reasons::explanation;
use std::alloc::Global;

/// The answer to a command. Its files are read in the order of the arguments.
pub fn answer_to<F: Shelf, P: Placing>(
    alloc: Global,
    command: &Command<'_>,
    shelf: &mut F,
    placing: &P,
) -> Result<Reply, Halt>
    ensures answered { IfOk result (λ reply.
        IsAnswerOver (F.files shelf.old) (job_of command.now) reply.outcome reply.text.items) }
    ensures answers { IfOk result (λ reply. IsAnswered reply.outcome) }
    ensures refused { IfErr result (λ halt. IfBadInput halt
        (IsBadInputOver (F.files shelf.old) (job_of command.now))) }
    ensures counted { result ≡ Err Halt.ReadFault → Rose (F.faults shelf.old) (F.faults shelf.new) }
    ensures uncounted { result ≢ Err Halt.ReadFault → F.faults shelf.new ≡ F.faults shelf.old }
    ensures same { F.files shelf.new ≡ F.files shelf.old }
{
    match *command {
        Command::Place { task, budget } => {
            let task = task_from(alloc, shelf, task)?;
            Ok(placement(alloc, &task, budget, placing)?)
        }
        Command::Check { task, certificate } => {
            let task = task_from(alloc, shelf, task)?;
            let certificate = certificate_from(alloc, shelf, &task, certificate)?;
            Ok(judgement(alloc, &task, &certificate)?)
        }
        Command::Best { task, looks } => {
            let task = task_from(alloc, shelf, task)?;
            Ok(placing_by_trees(alloc, &task, looks, placing)?)
        }
        Command::Why { task, looks } => {
            let task = task_from(alloc, shelf, task)?;
            Ok(explanation(alloc, &task, looks, placing)?)
        }
        Command::CheckAny { task, certificate } => {
            let task = task_from(alloc, shelf, task)?;
            let certificate = any_from(alloc, shelf, &task, certificate)?;
            Ok(judgement_of_any(alloc, &task, &certificate)?)
        }
        Command::Priced { task, budget } => {
            let task = task_from(alloc, shelf, task)?;
            Ok(placing_with_prices(alloc, &task, budget)?)
        }
        Command::CheckPriced { task, certificate } => {
            let task = task_from(alloc, shelf, task)?;
            let certificate = priced_from(alloc, shelf, &task, certificate)?;
            Ok(judgement_of_prices(alloc, &task, &certificate)?)
        }
        Command::Stops { file, budget } => {
            let stops = stops_from(alloc, shelf, file)?;
            Ok(placing_over_sectors(alloc, &stops, budget)?)
        }
        Command::Transit {
            ref names,
            ref question,
        } => answer_in_transit_from(alloc, shelf, names, *question, placing),
        Command::Generate { number } => Ok(summary(alloc, number, placing)?),
    }
}
