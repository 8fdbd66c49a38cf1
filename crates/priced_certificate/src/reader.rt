//! The reader of a certificate's text.

ghost use Rattle.std.specs.Prelude.{◌≡◌, ◌≢◌, ◌≤◌, length, All, AllPairs, IfOk, IfErr, MatchResult};
ghost use Rattle.hold_parts.specs.Spellings.{IsName};
ghost use Rattle.hold_parts.specs.declared.parts.Position.{Position};
ghost use Rattle.certificate.specs.declared.fault.CertFault.{CertFault};
ghost use Rattle.text_lines.specs.Grammar.{Fails};
ghost use Rattle.text_lines.specs.Lines.{text_of};
ghost use Rattle.priced_certificate.specs.PricedText.{priced_lines, IsSpelled, Spells};
ghost use Rattle.priced_certificate.specs.Refusals.{ArePricedLines, IsRefused};
ghost use Rattle.priced_certificate.specs.declared.parts.PricedCertificate.{PricedCertificate};

use crate::cut_readers::next_cuts;
use crate::parts::{PricedCertificate, PricedCuts};
use certificate::{CertFault, NameTable, after_start, next_claim};
use hold_limits::{Position, Task};
use std::alloc::Global;
use text_lines::{Last, LineFault, Lines, NumberWord, expect_last, next_fields};

/// The line with which a certificate with prices begins.
const START: &[u8] = b"CERTIFICATE 2";

/// The most prefixes that are looked at beside the cuts.
const MOST_EXPANDED: u32 = 50_000;

/// Reads the certificate with prices that the text spells over the positions of the task's hold. Lines before the first
/// line `CERTIFICATE 2` are skipped, and nothing follows the certificate.
///
/// A name that no position of the hold has, more than 60 names or prices of containers on a line, more than 64 prices of
/// positions, a price of more than 14 digits, a cut past the 32,000th and a number of looked-at prefixes over 50,000
/// make their line wrong. How many prices there have to be, and what they show, is for the checker. The time is linear
/// in the length of the text, with a factor for each name that is logarithmic in the number of positions. The cuts take
/// some 2,100 bytes each, and nothing else grows with the text.
pub fn read_priced(alloc: Global, task: &Task, text: &[u8]) -> Result<PricedCertificate, CertFault>
    ensures read { IfOk result (Spells task.now.hold.positions text.now) }
    ensures refused { IfErr result (IsRefused task.now.hold.positions text.now) }
    ensures complete { (c : PricedCertificate) → Spells task.now.hold.positions text.now c
        → MatchResult result (λ got. got ≡ c) (λ fault. fault ≡ CertFault.NoMemory) }
{
    read_over(alloc, task.hold().named_positions(), text)
}

/// The same, over the positions of a lawful hold.
fn read_over(
    alloc: Global,
    positions: &[Position],
    text: &[u8],
) -> Result<PricedCertificate, CertFault>
    requires few { length positions.now ≤ 64 }
    requires named { All (λ (q : Position). IsName q.name) positions.now }
    requires differ { AllPairs (λ (a b : Position). a.name ≢ b.name) positions.now }
    ensures read { IfOk result (Spells positions.now text.now) }
    ensures refused { IfErr result (IsRefused positions.now text.now) }
    ensures complete { (c : PricedCertificate) → Spells positions.now text.now c
        → MatchResult result (λ got. got ≡ c) (λ fault. fault ≡ CertFault.NoMemory) }
{
    let Some(mut lines) = after_start(text, START) else {
        return Err(CertFault::NoStart);
    };
    Ok(read_lines(alloc, positions, &mut lines)?)
}

/// The certificate that the lines after its first spell. Nothing follows these lines.
fn read_lines(
    alloc: Global,
    positions: &[Position],
    lines: &mut Lines<'_>,
) -> Result<PricedCertificate, LineFault>
    requires few { length positions.now ≤ 64 }
    requires named { All (λ (q : Position). IsName q.name) positions.now }
    requires differ { AllPairs (λ (a b : Position). a.name ≢ b.name) positions.now }
    ensures read { IfOk result (λ c. IsSpelled positions.now c
        × (lines.old.rest.now ≡ text_of (priced_lines positions.now c))) }
    ensures refused { IfErr result (Fails (ArePricedLines positions.now) lines.old.rest.now lines.old.number) }
{
    let names = NameTable::new(alloc, positions)?;
    read_named(alloc, &names, lines)
}

/// The same, with the positions by their names.
fn read_named(
    alloc: Global,
    names: &NameTable<'_>,
    lines: &mut Lines<'_>,
) -> Result<PricedCertificate, LineFault>
    ensures read { IfOk result (λ c. IsSpelled names.now.positions.now c
        × (lines.old.rest.now ≡ text_of (priced_lines names.now.positions.now c))) }
    ensures refused { IfErr result (Fails (ArePricedLines names.now.positions.now) lines.old.rest.now lines.old.number) }
{
    let claim = next_claim(names, lines)?;
    let cuts = next_cuts(alloc, names, lines)?;
    let number = NumberWord {
        least: 0,
        most: MOST_EXPANDED,
    };
    let expanded = next_fields(b"expanded ", &Last(number), lines)?;
    expect_last(b"END", lines)?;
    Ok(PricedCertificate {
        claim,
        cuts: PricedCuts::from(cuts),
        expanded,
    })
}
