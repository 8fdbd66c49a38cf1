//! The line that reports a refused file.

ghost use Rattle.std.specs.Prelude.{◌≡◌, ◌++◌, IfOk, OnOk};
ghost use Rattle.desk_fleet.specs.FleetText.{fault_number, reason_words, refusal_text, spaced};

use crate::fault::{FileReason, RefusedFile};
use aircraft_file::FileFault;
use base_words::NoMemory;
use std::alloc::Global;
use telex::Builder;

/// The number that stands for a fault of an aircraft's file in a line.
fn number_of(fault: FileFault) -> u64
    ensures { result ≡ fault_number fault }
{
    match fault {
        FileFault::Toml => 1,
        FileFault::Missing(_) => 2,
        FileFault::Wrong(_) => 3,
        FileFault::Hold(_) => 4,
        FileFault::Envelope(_, _) => 5,
        FileFault::Fuel(_) => 6,
        FileFault::Span(_) => 7,
        FileFault::NoMemory => 8,
    }
}

/// Appends the words of a reason, each after a space.
fn push_reason(out: &mut Builder, reason: FileReason) -> Result<(), NoMemory>
    ensures { OnOk result (out.new ≡ out.old ++ spaced (reason_words reason)) }
{
    match reason {
        FileReason::Long => out.word(b"LONG"),
        FileReason::Twice => out.word(b"TWICE"),
        FileReason::Fault(fault) => {
            out.text(b" FAULT ")?;
            out.count(number_of(fault))
        }
    }
}

/// The line that reports a refused file.
pub fn line_of_refusal(alloc: Global, refused: RefusedFile) -> Result<Vec<u8>, NoMemory>
    ensures { IfOk result (λ text. text.items ≡ refusal_text refused) }
{
    let mut out = Builder::new(alloc);
    out.text(b"AIRCRAFT ")?;
    out.count(refused.number as u64)?;
    push_reason(&mut out, refused.reason)?;
    out.end_line()?;
    Ok(out.finish())
}
