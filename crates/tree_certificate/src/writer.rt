//! The writer of a certificate's text.

ghost use Rattle.std.specs.Prelude.{◌≡◌, ℕ, List, ◌++◌, All, IfOk, OnOk};
ghost use Rattle.text_lines.specs.Lines.{text_of};
ghost use Rattle.tree_certificate.specs.Listed.{listed_trees};
ghost use Rattle.certificate.specs.Starts.{IsEarlier};
ghost use Rattle.tree_certificate.specs.TreeText.{start_line, tree_text, IsSpelled, Spells};

use crate::line_writers::{Cliques, Operations, PriceLists, Siblings};
use crate::parts::{TreeCertificate, root_word};
use base_words::NoMemory;
use certificate::push_claim;
use hold_limits::Task;
use std::alloc::Global;
use telex::Builder;
use text_lines::{write_lines, write_run};

/// Appends the text of the certificate over the positions of the task's hold.
pub fn push_trees(
    out: &mut Builder,
    task: &Task,
    certificate: &TreeCertificate,
) -> Result<(), NoMemory>
    ensures { OnOk result (out.new ≡ out.old ++ tree_text task.now.hold.positions (listed_trees certificate.now)) }
{
    let hold = task.hold();
    out.text(b"CERTIFICATE 3\n")?;
    push_claim(out, hold, &certificate.claim)?;
    write_lines(&Cliques(hold), certificate.cliques.as_slice(), out)?;
    write_lines(&PriceLists(hold), certificate.prices.as_slice(), out)?;
    out.text(root_word(&certificate.claim))?;
    out.end_line()?;
    write_lines(&Operations(hold), certificate.root.as_slice(), out)?;
    write_run(&Siblings(hold), certificate.siblings.as_slice(), out)?;
    out.text(b"END\n")?;
    Ok(())
}

/// Writes the one text of the certificate over the positions of the task's hold. Where each part of it can be spelled it is
/// read back, also behind any lines that are not `CERTIFICATE 3`.
pub fn write_trees(
    alloc: Global,
    task: &Task,
    certificate: &TreeCertificate,
) -> Result<Vec<u8>, NoMemory>
    ensures written { IfOk result (λ text. text.items ≡ tree_text task.now.hold.positions (listed_trees certificate.now)) }
    ensures read_back { IsSpelled task.now.hold.positions (listed_trees certificate.now)
        → IfOk result (λ text. (before : List (List ℕ)) → All (IsEarlier start_line) before
        → Spells task.now.hold.positions (text_of before ++ text.items) (listed_trees certificate.now)) }
{
    let mut out = Builder::new(alloc);
    push_trees(&mut out, task, certificate)?;
    Ok(out.finish())
}
