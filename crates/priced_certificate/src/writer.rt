//! The writer of a certificate's text.

ghost use Rattle.std.specs.Prelude.{◌≡◌, ◌≤◌, ◌++◌, length, All, IfSome, OnOk};
ghost use Rattle.certificate.specs.Evidence.{claimed};
ghost use Rattle.priced_certificate.specs.PricedText.{priced_certificate_text, IsShortCut};

use crate::line_writers::push_cuts;
use crate::parts::PricedCertificate;
use base_words::NoMemory;
use certificate::{push_claim, push_expanded};
use hold_limits::Task;
use telex::Builder;

/// Appends the text of the certificate over the positions of the task's hold.
pub fn push_priced_certificate(
    out: &mut Builder,
    task: &Task,
    certificate: &PricedCertificate,
) -> Result<(), NoMemory>
    ensures written { OnOk result (out.new
        ≡ out.old ++ priced_certificate_text task.now.hold.positions certificate.now) }
    ensures short_claim { OnOk result (IfSome (claimed certificate.now.claim) (λ path. length path ≤ 60)) }
    ensures short_cuts { OnOk result (All IsShortCut certificate.now.cuts) }
{
    let hold = task.hold();
    out.text(b"CERTIFICATE 2\n")?;
    push_claim(out, hold, &certificate.claim)?;
    push_cuts(out, hold, certificate.cuts.as_slice())?;
    push_expanded(out, certificate.expanded)?;
    out.text(b"END\n")?;
    Ok(())
}
