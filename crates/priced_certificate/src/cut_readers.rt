//! Readers of cuts.

ghost use Rattle.std.specs.Prelude.{◌≡◌, ◌≤◌, ◌∷◌, [], ◌++◌, ℕ, IfOk, IfErr, OnOk, IfSome, IfNone};
ghost use Rattle.text_lines.specs.Grammar.{Fails};
ghost use Rattle.priced_certificate.specs.Reading.{HasNoCutAhead, AreFromCut, IsCutBetween, AreCutsBetween};

use crate::parts::PricedCut;
use crate::price_readers::next_end;
use assignment_prices::Prices;
use base_words::NoMemory;
use certificate::{NameTable, read_path};
use std::alloc::Global;
use text_lines::{LineFault, Lines};

/// The most cuts that a certificate with prices has.
const MOST_CUTS: usize = 32_000;

/// The cut on the next lines. None where the next line is not the first one of a cut, and then nothing is consumed.
fn next_cut(names: &NameTable<'_>, lines: &mut Lines<'_>) -> Result<Option<PricedCut>, LineFault>
    ensures found { IfOk result (λ r. IfSome r (λ cut. IsCutBetween names.now.positions.now lines.old.rest.now lines.new.rest.now
        lines.old.number lines.new.number cut)) }
    ensures none { IfOk result (λ r. IfNone r ((lines.new ≡ lines.old)
        × HasNoCutAhead names.now.positions.now lines.old.rest.now)) }
    ensures refused { IfErr result (λ fault. (most : ℕ) → 1 ≤ most
        → Fails (AreFromCut names.now.positions.now most) lines.old.rest.now lines.old.number fault) }
{
    let Some((line, after)) = lines.split_first() else {
        return Ok(None);
    };
    let Some(prefix) = read_path(names, b"cut", line) else {
        return Ok(None);
    };
    *lines = after;
    let lower = next_end(b"lower", lines)?;
    let upper = next_end(b"upper", lines)?;
    let prices = Prices {
        lower_items: lower.items,
        lower_places: lower.places,
        upper_items: upper.items,
        upper_places: upper.places,
    };
    Ok(Some(PricedCut { prefix, prices }))
}

/// Adds a cut at the end.
fn keep(cuts: &mut Vec<PricedCut>, cut: PricedCut) -> Result<(), NoMemory>
    ensures { OnOk result (cuts.new.items ≡ cuts.old.items ++ cut ∷ []) }
{
    cuts.push(cut)?;
    Ok(())
}

/// The cuts on the next lines, up to the most that a certificate has.
pub fn next_cuts(
    alloc: Global,
    names: &NameTable<'_>,
    lines: &mut Lines<'_>,
) -> Result<Vec<PricedCut>, LineFault>
    ensures read { IfOk result (λ got. AreCutsBetween names.now.positions.now lines.old.rest.now lines.new.rest.now
        lines.old.number lines.new.number got.items) }
    ensures refused { IfErr result (Fails (AreFromCut names.now.positions.now 32000) lines.old.rest.now lines.old.number) }
{
    let mut cuts = Vec::new(alloc);
    while cuts.len() < MOST_CUTS {
        let Some(cut) = next_cut(names, lines)? else {
            return Ok(cuts);
        };
        keep(&mut cuts, cut)?;
    }
    Ok(cuts)
}
