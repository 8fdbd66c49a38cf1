//! The writer of a certificate's text.

ghost use Rattle.std.specs.Prelude.{◌≡◌, ◌<◌, ◌≤◌, ℕ, List, ◌++◌, length, All, IfOk, IfSome, OnOk};
ghost use Rattle.text_lines.specs.Lines.{text_of};
ghost use Rattle.certificate.specs.Evidence.{claimed};
ghost use Rattle.certificate.specs.Starts.{IsEarlier};
ghost use Rattle.certificate.specs.CertificateText.{start_line, certificate_text, IsSpelledNumber, AreFewCuts, Spells};

use crate::line_writers::{push_claim, push_cuts, push_expanded};
use crate::parts::Certificate;
use base_words::NoMemory;
use hold_limits::Task;
use std::alloc::Global;
use telex::Builder;

/// Appends the text of the certificate over the positions of the task's hold.
pub fn push_certificate(
    out: &mut Builder,
    task: &Task,
    certificate: &Certificate,
) -> Result<(), NoMemory>
    ensures written { OnOk result (out.new
        ≡ out.old ++ certificate_text task.now.hold.positions certificate.now) }
    ensures short_claim { OnOk result (IfSome (claimed certificate.now.claim) (λ path. length path ≤ 60)) }
    ensures short_cuts { OnOk result (All (λ cut. length cut ≤ 60) certificate.now.cuts) }
{
    let hold = task.hold();
    out.text(b"CERTIFICATE 1\n")?;
    push_claim(out, hold, &certificate.claim)?;
    push_cuts(out, hold, certificate.cuts.as_slice())?;
    push_expanded(out, certificate.expanded)?;
    out.text(b"END\n")?;
    Ok(())
}

/// Writes the one text of the certificate over the positions of the task's hold. Where it has at most 3,200,000 cuts
/// and looks at no more than 50,000 prefixes it is read back, also behind any lines that are not `CERTIFICATE 1`.
pub fn write_certificate(
    alloc: Global,
    task: &Task,
    certificate: &Certificate,
) -> Result<Vec<u8>, NoMemory>
    requires claim { IfSome (claimed certificate.now.claim) (All (λ q. q < length task.now.hold.positions)) }
    requires cuts { All (All (λ q. q < length task.now.hold.positions)) certificate.now.cuts }
    ensures written { IfOk result (λ text. text.items ≡ certificate_text task.now.hold.positions certificate.now) }
    ensures read_back { IsSpelledNumber certificate.now.expanded → AreFewCuts certificate.now.cuts
        → IfOk result (λ text. (before : List (List ℕ)) → All (IsEarlier start_line) before
        → Spells task.now.hold.positions (text_of before ++ text.items) certificate.now) }
{
    let _hold = task.hold();
    let mut out = Builder::new(alloc);
    push_certificate(&mut out, task, certificate)?;
    Ok(out.finish())
}
