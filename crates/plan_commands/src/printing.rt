//! The reply to a command, and its printing.

ghost use Rattle.std.specs.Prelude.{◌≡◌, ◌≢◌, ℕ, List, None, Err, IfOk};
ghost use Rattle.std.specs.Option.{option_copied};
ghost use Rattle.base_words.specs.Faults.{Rose};
ghost use Rattle.plan_commands.specs.Arguments.{arguments_of};
ghost use Rattle.plan_commands.specs.Commands.{AreCommand};
ghost use Rattle.plan_answers.specs.ReplyText.{usage_text};
ghost use Rattle.plan_commands.specs.Reply.{IsReplyOver};
ghost use Rattle.plan_commands.specs.Run.{outside, exit_status, IsRun, ExitsWith};

use crate::arguments::{Command, command_of};
use crate::ending::{Halt, Stop};
use crate::jobs::answer_to;
use load_io::{Shelf, Sink, write_all};
use placer::Placing;
use plan_answers::{Outcome, Reply, word_line};
use std::alloc::Global;

/// The reply to a command, or to invalid arguments where there is none. Its files are read at most once each, in the order of
/// the arguments.
fn reply_to<F: Shelf, P: Placing>(
    alloc: Global,
    command: Option<&Command<'_>>,
    shelf: &mut F,
    placing: &P,
) -> Result<Reply, Stop>
    ensures replied { (arguments : List (List ℕ)) → AreCommand arguments (option_copied command.entry)
        → IfOk result (λ reply. IsReplyOver arguments (F.files shelf.old) reply.outcome reply.text.items) }
    ensures usage { IfOk result (λ reply. reply.outcome ≡ Outcome.Usage → (command.entry ≡ None) × (reply.text.items ≡ usage_text)) }
    ensures invalid { command.entry ≡ None → IfOk result (λ reply. reply.outcome ≡ Outcome.Usage) }
    ensures unread { command.entry ≡ None → result ≢ Err Stop.ReadFault }
    ensures unwritten { result ≢ Err Stop.WriteFault }
    ensures counted { result ≡ Err Stop.ReadFault → Rose (F.faults shelf.old) (F.faults shelf.new) }
    ensures uncounted { result ≢ Err Stop.ReadFault → F.faults shelf.new ≡ F.faults shelf.old }
    ensures same { F.files shelf.new ≡ F.files shelf.old }
{
    let Some(command) = command else {
        return Ok(Reply {
            outcome: Outcome::Usage,
            text: word_line(alloc, b"USAGE")?,
        });
    };
    match answer_to(alloc, command, shelf, placing) {
        Ok(reply) => Ok(reply),
        Err(Halt::BadInput(text)) => Ok(Reply {
            outcome: Outcome::BadInput,
            text,
        }),
        Err(Halt::ReadFault) => Err(Stop::ReadFault),
        Err(Halt::NoMemory) => Err(Stop::NoMemory),
    }
}

/// Prints the reply to a command, or to invalid arguments.
fn print_reply<F: Shelf, O: Sink, P: Placing>(
    alloc: Global,
    command: Option<&Command<'_>>,
    shelf: &mut F,
    out: &mut O,
    placing: &P,
) -> Result<Outcome, Stop>
    ensures { (arguments : List (List ℕ)) → AreCommand arguments (option_copied command.entry) → IsRun arguments
        (outside (F.files shelf.old) (F.faults shelf.old) (O.content out.old) (O.faults out.old))
        (outside (F.files shelf.new) (F.faults shelf.new) (O.content out.new) (O.faults out.new))
        result }
{
    let reply = reply_to(alloc, command, shelf, placing)?;
    match write_all(out, reply.text.as_slice()) {
        Ok(()) => Ok(reply.outcome),
        Err(_) => Err(Stop::WriteFault),
    }
}

/// The exit status of a run that ends so.
pub fn exit_status(ending: Result<Outcome, Stop>) -> u8
    ensures { result ≡ exit_status ending }
{
    match ending {
        Ok(Outcome::Done) => 0,
        Ok(Outcome::Usage) => 2,
        Ok(Outcome::BadInput) => 3,
        Ok(Outcome::NothingFits) => 4,
        Ok(Outcome::OverBudget) => 5,
        Ok(Outcome::Undecided) => 5,
        Ok(Outcome::Rejected) => 10,
        Err(Stop::ReadFault) => 6,
        Err(Stop::WriteFault) => 7,
        Err(Stop::NoMemory) => 9,
    }
}

/// Does what a command asks, or says that the arguments are invalid where there is none, and returns the exit status. Nothing is
/// printed except on `out`.
pub fn run_command<F: Shelf, O: Sink, P: Placing>(
    alloc: Global,
    command: Option<&Command<'_>>,
    shelf: &mut F,
    out: &mut O,
    placing: &P,
) -> u8
    ensures { (arguments : List (List ℕ)) → AreCommand arguments (option_copied command.entry) → ExitsWith arguments
        (outside (F.files shelf.old) (F.faults shelf.old) (O.content out.old) (O.faults out.old))
        (outside (F.files shelf.new) (F.faults shelf.new) (O.content out.new) (O.faults out.new))
        result }
{
    exit_status(print_reply(alloc, command, shelf, out, placing))
}

/// Does what the arguments ask, as `run_command` does.
pub fn print<F: Shelf, O: Sink, P: Placing>(
    alloc: Global,
    arguments: &[String],
    shelf: &mut F,
    out: &mut O,
    placing: &P,
) -> u8
    ensures { ExitsWith (arguments_of arguments.now)
        (outside (F.files shelf.old) (F.faults shelf.old) (O.content out.old) (O.faults out.old))
        (outside (F.files shelf.new) (F.faults shelf.new) (O.content out.new) (O.faults out.new))
        result }
{
    let command = command_of(arguments);
    run_command(alloc, command.as_ref(), shelf, out, placing)
}
