//! The office of one desk, over one connection.

ghost use Rattle.std.specs.Prelude.{◌≡◌, ◌≤◌, IfOk, IfErr, OnOk};
ghost use Rattle.desk_run.specs.Runs.{line};
ghost use Rattle.plan_commands.specs.Arguments.{arguments_of};
ghost use Rattle.loadctl.specs.Desk.{surroundings, fault_text, status_of_end, status_of_fault, EndsDesk, IsReported};

use base_words::NoMemory;
use desk_fleet::line_of_refusal;
use desk_run::{ConnEnd, DeskFault, OfficeRun, run_desk};
use keeper::Keeper;
use load_io::{Shelf, Sink, Source, write_all};
use placer::Placing;
use plan_commands::two_word_line;
use std::alloc::Global;

/// What is printed where the desk was not opened. Nothing is where a file could not be read or memory ran out.
fn text_of_fault(alloc: Global, fault: &DeskFault) -> Result<Vec<u8>, NoMemory>
    ensures { IfOk result (λ text. text.items ≡ fault_text fault.now) }
{
    match fault {
        DeskFault::Fleet(file) => line_of_refusal(alloc, *file),
        DeskFault::Keeper => two_word_line(alloc, b"STORE", b"FAULT"),
        DeskFault::BadTable(key) => two_word_line(alloc, b"TABLE", key.as_slice()),
        DeskFault::TooMany => two_word_line(alloc, b"TABLE", b"FULL"),
        DeskFault::Unread | DeskFault::NoMemory => Ok(Vec::new(alloc)),
    }
}

fn status_of_fault(fault: &DeskFault) -> u8
    ensures { result ≡ status_of_fault fault.now }
{
    match fault {
        DeskFault::Fleet(_) => 3,
        DeskFault::Unread => 6,
        DeskFault::Keeper => 8,
        DeskFault::NoMemory => 9,
        DeskFault::BadTable(_) | DeskFault::TooMany => 12,
    }
}

fn status_of_end(end: ConnEnd) -> u8
    ensures { result ≡ status_of_end end }
{
    match end {
        ConnEnd::Ended => 0,
        ConnEnd::Refused(_) => 3,
        ConnEnd::ReadFault => 6,
        ConnEnd::WriteFault => 7,
        ConnEnd::Served => 13,
    }
}

/// Prints why the desk was not opened, and returns the exit status.
pub fn report<O: Sink>(alloc: Global, fault: &DeskFault, out: &mut O) -> u8
    ensures { IsReported fault.now (O.content out.old) (O.content out.new) (O.faults out.old) (O.faults out.new) result }
{
    match text_of_fault(alloc, fault) {
        Ok(text) => match write_all(out, text.as_slice()) {
            Ok(()) => status_of_fault(fault),
            Err(_) => 7,
        },
        Err(_) => 9,
    }
}

/// The exit status of a run of a desk. Where it was not opened, prints why.
fn status_of<O: Sink>(alloc: Global, ending: Result<ConnEnd, DeskFault>, out: &mut O) -> u8
    ensures served { IfOk ending (λ end. result ≡ status_of_end end) }
    ensures unchanged { OnOk ending ((O.content out.new ≡ O.content out.old) × (O.faults out.new ≡ O.faults out.old)) }
    ensures reported { IfErr ending (λ fault. IsReported fault (O.content out.old) (O.content out.new) (O.faults out.old) (O.faults out.new) result) }
{
    match ending {
        Ok(end) => status_of_end(end),
        Err(fault) => report(alloc, &fault, out),
    }
}

/// Opens an office with the aircraft in these files, on the rows that were kept, and serves one connection on the input
/// and the output.
pub fn serve_desk<Rt, F: Shelf, S: Source, O: Sink, K: Keeper, P: Placing>(
    rt: &Rt,
    alloc: Global,
    names: &[String],
    shelf: &mut F,
    input: &mut S,
    out: &mut O,
    keeper: K,
    placing: &P,
) -> OfficeRun<u8, K, ()>
    ensures ends { EndsDesk (arguments_of names.now)
        (surroundings (F.files shelf.old) (F.faults shelf.old) (K.tables keeper) (K.faults keeper)
        (line (S.left input.old) (O.content out.old) (S.faults input.old) (O.faults out.old)))
        (surroundings (F.files shelf.new) (F.faults shelf.new) (K.tables result.keeper) (K.faults result.keeper)
        (line (S.left input.new) (O.content out.new) (S.faults input.new) (O.faults out.new)))
        result.opening.items result.history.items result.ending }
    ensures same_files { F.files shelf.new ≡ F.files shelf.old }
    ensures never_falls { K.faults keeper ≤ K.faults result.keeper }
{
    let OfficeRun {
        ending,
        keeper,
        doors,
        opening,
        history,
    } = run_desk(rt, alloc, names, shelf, input, out, keeper, placing);
    let status = status_of(alloc, ending, out);
    OfficeRun {
        ending: status,
        keeper,
        doors,
        opening,
        history,
    }
}

#[cfg(test)]
mod tests;
