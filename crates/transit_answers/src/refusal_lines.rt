//! The lines with which a flight in transit is refused.

ghost use Rattle.std.specs.Prelude.{◌≡◌, IfOk};
ghost use Rattle.transit_answers.specs.TransitLines.{message_text, telex_fault_number, IsMessageFaultLine, transit_text, IsTransitFaultLine};

use base_words::NoMemory;
use ldm_cpm::MsgFault;
use std::alloc::Global;
use telex::{Builder, TelexFault};
use transit_tasks::TransitFault;

/// The name of a message, the kind of its fault, and a number.
fn message_line(alloc: Global, name: &[u8], kind: &[u8], number: u64) -> Result<Vec<u8>, NoMemory>
    ensures { IfOk result (λ text. text.items ≡ message_text name.now kind.now number) }
{
    let mut out = Builder::new(alloc);
    out.text(name)?;
    out.word(kind)?;
    out.text(b" ")?;
    out.count(number)?;
    out.end_line()?;
    Ok(out.finish())
}

fn number_of_telex_fault(fault: TelexFault) -> u64
    ensures { result ≡ telex_fault_number fault }
{
    match fault {
        TelexFault::BadByte(_) => 1,
        TelexFault::LineTooLong(_) => 2,
        TelexFault::NoEnd => 3,
    }
}

/// The line that reports a fault of the message of this name, `CPM` or `LDM`. That memory ran out is no fault of it, and
/// is passed on.
pub fn line_of_message_fault(
    alloc: Global,
    name: &[u8],
    fault: MsgFault,
) -> Result<Vec<u8>, NoMemory>
    ensures { IfOk result (λ text. IsMessageFaultLine name.now fault text.items) }
{
    match fault {
        MsgFault::Telex(fault) => {
            message_line(alloc, name, b"TELEX", number_of_telex_fault(fault))
        }
        MsgFault::Line(number) => message_line(alloc, name, b"LINE", number as u64),
        MsgFault::NoMemory => Err(NoMemory),
    }
}

/// `TRANSIT k`.
fn transit_line(alloc: Global, number: u64) -> Result<Vec<u8>, NoMemory>
    ensures { IfOk result (λ text. text.items ≡ transit_text number) }
{
    let mut out = Builder::new(alloc);
    out.text(b"TRANSIT ")?;
    out.count(number)?;
    out.end_line()?;
    Ok(out.finish())
}

/// The line that reports why a task and two messages state no flight in transit. That memory ran out is no reason, and is
/// passed on.
pub fn line_of_transit_fault(alloc: Global, fault: TransitFault) -> Result<Vec<u8>, NoMemory>
    ensures { IfOk result (λ text. IsTransitFaultLine fault text.items) }
{
    match fault {
        TransitFault::Heads => transit_line(alloc, 1),
        TransitFault::Totals(_, _) => transit_line(alloc, 2),
        TransitFault::Place(_) => transit_line(alloc, 3),
        TransitFault::NoFit(_) => transit_line(alloc, 4),
        TransitFault::Clash(_) => transit_line(alloc, 5),
        TransitFault::Offered(_) => transit_line(alloc, 6),
        TransitFault::BulkShared(_) => transit_line(alloc, 7),
        TransitFault::Task(_) => transit_line(alloc, 8),
        TransitFault::NoMemory => Err(NoMemory),
    }
}
