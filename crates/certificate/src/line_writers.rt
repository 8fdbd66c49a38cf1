//! Lines of a certificate, appended to a text.

ghost use Rattle.std.specs.Prelude.{◌≡◌, ◌≤◌, ◌∷◌, [], ◌++◌, length, All, OnOk, IfSome, map};
ghost use Rattle.text_lines.specs.Lines.{text_of};
ghost use Rattle.certificate.specs.Evidence.{claimed, paths_of};
ghost use Rattle.certificate.specs.CertificateText.{path_line, claim_line, cut_line, expanded_line};

use crate::parts::Claim;
use base_words::NoMemory;
use hold_limits::{Hold, Path};
use telex::Builder;
use text_lines::{EntryWriter, NamesOf, write_lines, write_run};

/// Appends a word and the positions of a path.
fn push_named(out: &mut Builder, hold: &Hold, word: &[u8], path: &Path) -> Result<(), NoMemory>
    ensures written { OnOk result (out.new ≡ out.old ++ path_line word.now hold.now.positions path.now.items) }
    ensures few { length path.now.items ≤ 60 }
{
    let numbers = path.as_slice();
    out.text(word)?;
    write_run(&NamesOf(hold), numbers, out)
}

/// Appends the line of a word and the positions of a path.
pub fn push_path(out: &mut Builder, hold: &Hold, word: &[u8], path: &Path) -> Result<(), NoMemory>
    ensures written { OnOk result (out.new
        ≡ out.old ++ (path_line word.now hold.now.positions path.now.items ++ 10 ∷ [])) }
    ensures few { length path.now.items ≤ 60 }
{
    push_named(out, hold, word, path)?;
    out.end_line()
}

/// Appends the line of a claim.
pub fn push_claim(out: &mut Builder, hold: &Hold, claim: &Claim) -> Result<(), NoMemory>
    ensures written { OnOk result (out.new
        ≡ out.old ++ (claim_line hold.now.positions claim.now ++ 10 ∷ [])) }
    ensures few { IfSome (claimed claim.now) (λ path. length path ≤ 60) }
{
    match claim {
        Claim::Best(path) => push_path(out, hold, b"best", path),
        Claim::NoneFits => out.text(b"none\n"),
    }
}

/// Cuts by positions of the hold.
#[derive(Clone, Copy)]
struct CutsOf<'a>(&'a Hold);

impl EntryWriter for CutsOf<'_> {
    ghost use Rattle.std.specs.Prelude.{◌≤◌, length};
    ghost use Rattle.certificate.specs.CertificateText.{cut_line};

    type Entry = Path;

    ghost text = { λ w cut. cut_line w.0.now.positions cut.items };

    ghost spelled = { λ _ cut. length cut.items ≤ 60 };

    fn write(&self, cut: &Path, out: &mut Builder) -> Result<(), NoMemory> {
        push_named(out, self.0, b"cut", cut)
    }
}

/// Appends the lines of cuts.
pub fn push_cuts(out: &mut Builder, hold: &Hold, cuts: &[Path]) -> Result<(), NoMemory>
    ensures written { OnOk result (out.new
        ≡ out.old ++ text_of (map (cut_line hold.now.positions) (paths_of cuts.now))) }
    ensures few { OnOk result (All (λ cut. length cut ≤ 60) (paths_of cuts.now)) }
{
    write_lines(&CutsOf(hold), cuts, out)?;
    Ok(())
}

/// Appends the line of the number of prefixes that are looked at.
pub fn push_expanded(out: &mut Builder, expanded: u32) -> Result<(), NoMemory>
    ensures { OnOk result (out.new ≡ out.old ++ (expanded_line expanded ++ 10 ∷ [])) }
{
    out.text(b"expanded ")?;
    out.count(u64::from(expanded))?;
    out.end_line()
}
