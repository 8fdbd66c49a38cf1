//! Readers of the lines of a certificate after its first.

ghost use Rattle.std.specs.Prelude.{◌≡◌, ◌≢◌, ℕ, ◌+◌, ◌≤◌, List, ◌∷◌, ◌++◌, OnOk, IfOk, IfErr, IfSome, IfNone};
ghost use Rattle.text_lines.specs.Cuts.{Avoids, IsCutAt};
ghost use Rattle.text_lines.specs.Lines.{IsStopped};
ghost use Rattle.text_lines.specs.Sections.{ArePart};
ghost use Rattle.text_lines.specs.WordRuns.{run_text, name_text};
ghost use Rattle.certificate.specs.Evidence.{paths_of};
ghost use Rattle.certificate.specs.CertificateText.{path_line, claim_line, cut_line, IsSpelledPath, IsSpelledClaim, AreFewCuts};
ghost use Rattle.certificate.specs.Reading.{IsClaimLine};

use crate::name_table::NameTable;
use crate::parts::Claim;
use base_words::NoMemory;
use hold_limits::Path;
use std::alloc::Global;
use text_lines::{LineFault, Lines, cut};

/// The most cuts that a certificate has.
const MOST_CUTS: usize = 3_200_000;

/// The line of the claim that nothing fits.
const NOTHING: &[u8] = b"none";

/// The positions that the words name, each word after a space. None where a word is no name, or where there are over
/// 60 of them.
fn named_path(names: &NameTable<'_>, words: &[u8]) -> Option<Path>
    requires words { IsCutAt 32 words.now }
    ensures found { IfSome result (λ path. IsSpelledPath names.now.positions.now path.items
        × (words.now ≡ run_text (name_text names.now.positions.now) path.items)) }
    ensures none { IfNone result ((path : List ℕ) → IsSpelledPath names.now.positions.now path
        → words.now ≢ run_text (name_text names.now.positions.now) path) }
{
    let mut path = Path::new();
    let mut rest = words;
    while !rest.is_empty() {
        let Some((number, more)) = names.next_number(rest) else {
            return None;
        };
        if path.is_full() {
            return None;
        }
        path.push(number);
        rest = more;
    }
    Some(path)
}

/// The positions that a line names after this word. None where it has another word, a name of no position, or over 60
/// names.
pub fn read_path(names: &NameTable<'_>, word: &[u8], line: &[u8]) -> Option<Path>
    requires word { Avoids 32 word.now }
    ensures found { IfSome result (λ path. IsSpelledPath names.now.positions.now path.items
        × (line.now ≡ path_line word.now names.now.positions.now path.items)) }
    ensures none { IfNone result ((path : List ℕ) → IsSpelledPath names.now.positions.now path
        → line.now ≢ path_line word.now names.now.positions.now path) }
{
    let (first, words) = cut(b' ', line);
    if first != word {
        return None;
    }
    named_path(names, words)
}

/// The claim of a line `best NAME NAME ..` or `none`.
fn read_claim(names: &NameTable<'_>, line: &[u8]) -> Option<Claim>
    ensures found { IfSome result (λ claim. IsSpelledClaim names.now.positions.now claim
        × (line.now ≡ claim_line names.now.positions.now claim)) }
    ensures none { IfNone result (IsClaimLine names.now.positions.now line.now → ⊥) }
{
    if line == NOTHING {
        return Some(Claim::NoneFits);
    }
    Some(Claim::Best(read_path(names, b"best", line)?))
}

/// The claim, on the next line.
pub fn next_claim(names: &NameTable<'_>, lines: &mut Lines<'_>) -> Result<Claim, LineFault>
    ensures read { IfOk result (λ claim. IsSpelledClaim names.now.positions.now claim
        × (lines.old.rest.now ≡ claim_line names.now.positions.now claim ++ 10 ∷ lines.new.rest.now)) }
    ensures counted { OnOk result (lines.new.number ≡ lines.old.number + 1) }
    ensures refused { IfErr result (IsStopped lines.old.rest.now lines.old.number
        (IsClaimLine names.now.positions.now)) }
{
    let number = lines.number;
    read_claim(names, lines.next_line()?).ok_or(LineFault::Line(number))
}

/// How many lines the text has, or the most cuts where these are fewer.
fn room_for_cuts(text: &[u8]) -> usize
    ensures { result ≤ 3200000 }
{
    let feeds = text.iter().filter(|byte| **byte == b'\n').count();
    feeds.min(MOST_CUTS)
}

/// The cuts on the next lines, up to the most that a certificate has.
pub fn next_cuts(
    alloc: Global,
    names: &NameTable<'_>,
    lines: &mut Lines<'_>,
) -> Result<Vec<Path>, NoMemory>
    ensures { IfOk result (λ got. ArePart (cut_line names.now.positions.now) (IsSpelledPath names.now.positions.now) AreFewCuts
        lines.old.rest.now lines.new.rest.now lines.old.number lines.new.number (paths_of got.items)) }
{
    let mut cuts = Vec::with_capacity(alloc, room_for_cuts(lines.rest))?;
    while cuts.len() < MOST_CUTS {
        let Some((line, after)) = lines.split_first() else {
            return Ok(cuts);
        };
        let Some(cut) = read_path(names, b"cut", line) else {
            return Ok(cuts);
        };
        cuts.push(cut)?;
        *lines = after;
    }
    Ok(cuts)
}
