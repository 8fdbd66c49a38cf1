//! The reader of a certificate's text.

ghost use Rattle.std.specs.Prelude.{◌≡◌, ◌≢◌, ℕ, ◌+◌, ◌≤◌, List, length, All, AllPairs, IfOk, IfErr, IfSome, IfNone, MatchResult};
ghost use Rattle.hold_parts.specs.Spellings.{IsName};
ghost use Rattle.hold_parts.specs.declared.parts.Position.{Position};
ghost use Rattle.text_lines.specs.Grammar.{Fails};
ghost use Rattle.text_lines.specs.Lines.{text_of};
ghost use Rattle.certificate.specs.Starts.{StartsAfter, HasNoStart};
ghost use Rattle.certificate.specs.CertificateText.{evidence_lines, IsSpelled, Spells};
ghost use Rattle.certificate.specs.Refusals.{AreEvidence, IsRefused};
ghost use Rattle.certificate.specs.declared.parts.Certificate.{Certificate};

use crate::fault::CertFault;
use crate::line_readers::{next_claim, next_cuts};
use crate::name_table::NameTable;
use crate::parts::{Certificate, Cuts};
use hold_limits::{Position, Task};
use std::alloc::Global;
use text_lines::{Last, LineFault, Lines, NumberWord, expect_last, next_fields};

/// The line with which a certificate begins.
const START: &[u8] = b"CERTIFICATE 1";

/// The most prefixes that are looked at beside the cuts.
const MOST_EXPANDED: u32 = 50_000;

/// Reads the certificate that the text spells over the positions of the task's hold. Lines before the first line
/// `CERTIFICATE 1` are skipped, and nothing follows the certificate.
///
/// A name that no position of the hold has, more than 60 names on a line, a cut past the 3,200,000th and a number of
/// looked-at prefixes over 50,000 make their line wrong. A claimed path may have any number of positions up to 60. The
/// time is linear in the length of the text, with a factor for each name that is logarithmic in the number of
/// positions. The cuts take 72 bytes each, with room for as many as there are lines, and nothing else grows with the text.
pub fn read_certificate(alloc: Global, task: &Task, text: &[u8]) -> Result<Certificate, CertFault>
    ensures read { IfOk result (Spells task.now.hold.positions text.now) }
    ensures refused { IfErr result (IsRefused task.now.hold.positions text.now) }
    ensures complete { (c : Certificate) → Spells task.now.hold.positions text.now c
        → MatchResult result (λ got. got ≡ c) (λ fault. fault ≡ CertFault.NoMemory) }
{
    read_over(alloc, task.hold().named_positions(), text)
}

/// The same, over the positions of a lawful hold.
fn read_over(alloc: Global, positions: &[Position], text: &[u8]) -> Result<Certificate, CertFault>
    requires few { length positions.now ≤ 64 }
    requires named { All (λ (q : Position). IsName q.name) positions.now }
    requires differ { AllPairs (λ (a b : Position). a.name ≢ b.name) positions.now }
    ensures read { IfOk result (Spells positions.now text.now) }
    ensures refused { IfErr result (IsRefused positions.now text.now) }
    ensures complete { (c : Certificate) → Spells positions.now text.now c
        → MatchResult result (λ got. got ≡ c) (λ fault. fault ≡ CertFault.NoMemory) }
{
    let Some(mut lines) = after_start(text, START) else {
        return Err(CertFault::NoStart);
    };
    Ok(read_evidence(alloc, positions, &mut lines)?)
}

/// The lines after the first line that is this start. None where there is no such line.
pub fn after_start<'t>(text: &'t [u8], start: &[u8]) -> Option<Lines<'t>>
    ensures found { IfSome result (λ lines. (before : List (List ℕ)) × StartsAfter start.now before text.now lines.rest.now
        × (lines.number ≡ length before + 2)) }
    ensures none { IfNone result (HasNoStart start.now text.now) }
{
    let mut lines = Lines::new(text);
    while let Some((line, after)) = lines.split_first() {
        if line == start {
            return Some(after);
        }
        lines = after;
    }
    None
}

/// The certificate that the lines after its first spell. Nothing follows these lines.
fn read_evidence(
    alloc: Global,
    positions: &[Position],
    lines: &mut Lines<'_>,
) -> Result<Certificate, LineFault>
    requires few { length positions.now ≤ 64 }
    requires named { All (λ (q : Position). IsName q.name) positions.now }
    requires differ { AllPairs (λ (a b : Position). a.name ≢ b.name) positions.now }
    ensures read { IfOk result (λ c. IsSpelled positions.now c
        × (lines.old.rest.now ≡ text_of (evidence_lines positions.now c))) }
    ensures refused { IfErr result (Fails (AreEvidence positions.now) lines.old.rest.now lines.old.number) }
{
    let names = NameTable::new(alloc, positions)?;
    read_lines(alloc, &names, lines)
}

/// The same, with the positions by their names.
#[tactic(auto, using(text_lines::proofs::GrammarLemmas::fails_of_memory))]
fn read_lines(
    alloc: Global,
    names: &NameTable<'_>,
    lines: &mut Lines<'_>,
) -> Result<Certificate, LineFault>
    requires { All (λ (q : Position). IsName q.name) names.now.positions.now }
    ensures read { IfOk result (λ c. IsSpelled names.now.positions.now c
        × (lines.old.rest.now ≡ text_of (evidence_lines names.now.positions.now c))) }
    ensures refused { IfErr result (Fails (AreEvidence names.now.positions.now) lines.old.rest.now lines.old.number) }
{
    let claim = next_claim(names, lines)?;
    let cuts = next_cuts(alloc, names, lines)?;
    let number = NumberWord {
        least: 0,
        most: MOST_EXPANDED,
    };
    let expanded = next_fields(b"expanded ", &Last(number), lines)?;
    expect_last(b"END", lines)?;
    Ok(Certificate {
        claim,
        cuts: Cuts::from(cuts),
        expanded,
    })
}
