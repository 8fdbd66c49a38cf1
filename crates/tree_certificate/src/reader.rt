//! The reader of a certificate's text.

ghost use Rattle.std.specs.Prelude.{◌≡◌, ◌≢◌, ◌+◌, ◌≤◌, List, ◌∷◌, ◌++◌, length, map, All, AllPairs, IfOk, IfErr, IfSome, IfNone, MatchResult};
ghost use Rattle.hold_parts.specs.Spellings.{IsName};
ghost use Rattle.hold_parts.specs.declared.parts.Position.{Position};
ghost use Rattle.text_lines.specs.Grammar.{Fails};
ghost use Rattle.text_lines.specs.Lines.{text_of};
ghost use Rattle.text_lines.specs.Sections.{IsSection};
ghost use Rattle.tree_certificate.specs.Listed.{ListedTrees, listed_prices, listed_sibling, listed_trees};
ghost use Rattle.tree_certificate.specs.TreeText.{least_line, price_line, tree_lines, IsSpelled, IsSpelledLeast, IsSpelledPriceList, Spells};
ghost use Rattle.tree_certificate.specs.Refusals.{AreTreeLines, IsRefused};
ghost use Rattle.tree_certificate.specs.Reading.{HasNoLeastAhead, IsSibling, AreSiblings};

use crate::line_readers::{CliqueLines, OperationLines, read_least};
use crate::parts::{PriceList, Sibling, TreeCertificate, root_word};
use crate::price_readers::read_price_list;
use base_words::NoMemory;
use certificate::{CertFault, NameTable, after_start, next_claim};
use hold_limits::{Position, Task};
use std::alloc::Global;
use text_lines::{LineFault, Lines, expect_last, expect_line, read_section};

/// The line with which a certificate of trees begins.
const START: &[u8] = b"CERTIFICATE 3";

/// Reads the certificate of trees that the text spells over the positions of the task's hold. Lines before the first line
/// `CERTIFICATE 3` are skipped, and nothing follows the certificate.
///
/// A name that no position of the hold has makes its line wrong, and so do positions of a set that do not stand from nose
/// to tail. Whether what the lines say holds is for the checker. Time and memory are linear in the length of the text.
pub fn read_trees(alloc: Global, task: &Task, text: &[u8]) -> Result<TreeCertificate, CertFault>
    ensures read { IfOk result (λ got. Spells task.now.hold.positions text.now (listed_trees got)) }
    ensures refused { IfErr result (IsRefused task.now.hold.positions text.now) }
    ensures complete { (c : ListedTrees) → Spells task.now.hold.positions text.now c
        → MatchResult result (λ got. listed_trees got ≡ c) (λ fault. fault ≡ CertFault.NoMemory) }
{
    read_over(alloc, task.hold().named_positions(), text)
}

/// The same, over the positions of a lawful hold.
fn read_over(
    alloc: Global,
    positions: &[Position],
    text: &[u8],
) -> Result<TreeCertificate, CertFault>
    requires few { length positions.now ≤ 64 }
    requires named { All (λ (q : Position). IsName q.name) positions.now }
    requires differ { AllPairs (λ (a b : Position). a.name ≢ b.name) positions.now }
    ensures read { IfOk result (λ got. Spells positions.now text.now (listed_trees got)) }
    ensures refused { IfErr result (IsRefused positions.now text.now) }
    ensures complete { (c : ListedTrees) → Spells positions.now text.now c
        → MatchResult result (λ got. listed_trees got ≡ c) (λ fault. fault ≡ CertFault.NoMemory) }
{
    let Some(mut lines) = after_start(text, START) else {
        return Err(CertFault::NoStart);
    };
    Ok(read_lines(alloc, positions, &mut lines)?)
}

/// The lists of prices on the next lines.
fn next_price_lists(
    alloc: Global,
    names: &NameTable<'_>,
    lines: &mut Lines<'_>,
) -> Result<Vec<PriceList>, NoMemory>
    requires { All (λ (q : Position). IsName q.name) names.now.positions.now }
    ensures { IfOk result (λ got. IsSection (price_line names.now.positions.now) (IsSpelledPriceList names.now.positions.now)
        (λ list. list) lines.old.rest.now lines.new.rest.now lines.old.number lines.new.number (map listed_prices got.items)) }
{
    let mut lists = Vec::new(alloc);
    while let Some((line, after)) = lines.split_first() {
        let Some(list) = read_price_list(alloc, names, line)? else {
            return Ok(lists);
        };
        lists.push(list)?;
        *lines = after;
    }
    Ok(lists)
}

/// The rank and the position of the sibling on the next line, and the lines after it. None where there is no such line.
fn next_least<'a>(names: &NameTable<'_>, lines: &Lines<'a>) -> Option<((u8, u8), Lines<'a>)>
    ensures found { IfSome result (λ x. IsSpelledLeast names.now.positions.now x.0
        × (lines.now.rest.now ≡ least_line names.now.positions.now x.0 ++ 10 ∷ x.1.rest.now)) }
    ensures counted { IfSome result (λ x. x.1.number ≡ lines.now.number + 1) }
    ensures none { IfNone result (HasNoLeastAhead names.now.positions.now lines.now.rest.now) }
{
    let (line, after) = lines.split_first()?;
    Some((read_least(names, line)?, after))
}

/// The sibling on the next lines, with the operations of its tree. None where the next line is not that of a sibling.
fn next_sibling(
    alloc: Global,
    names: &NameTable<'_>,
    lines: &mut Lines<'_>,
) -> Result<Option<Sibling>, NoMemory>
    ensures found { IfOk result (λ r. IfSome r (λ s. IsSibling names.now.positions.now lines.old.rest.now lines.new.rest.now
        lines.old.number lines.new.number (listed_sibling s))) }
    ensures none { IfOk result (λ r. IfNone r ((lines.new ≡ lines.old)
        × HasNoLeastAhead names.now.positions.now lines.old.rest.now)) }
{
    let Some(((rank, position), after)) = next_least(names, lines) else {
        return Ok(None);
    };
    *lines = after;
    let operations = read_section(alloc, &OperationLines(names), lines)?;
    Ok(Some(Sibling {
        rank,
        position,
        operations,
    }))
}

/// The siblings on the next lines, each with the operations of its tree.
fn next_siblings(
    alloc: Global,
    names: &NameTable<'_>,
    lines: &mut Lines<'_>,
) -> Result<Vec<Sibling>, NoMemory>
    ensures { IfOk result (λ got. AreSiblings names.now.positions.now lines.old.rest.now lines.new.rest.now
        lines.old.number lines.new.number (map listed_sibling got.items)) }
{
    let mut siblings = Vec::new(alloc);
    while let Some(sibling) = next_sibling(alloc, names, lines)? {
        siblings.push(sibling)?;
    }
    Ok(siblings)
}

/// The certificate that the lines after its first spell. Nothing follows these lines.
fn read_lines(
    alloc: Global,
    positions: &[Position],
    lines: &mut Lines<'_>,
) -> Result<TreeCertificate, LineFault>
    requires few { length positions.now ≤ 64 }
    requires named { All (λ (q : Position). IsName q.name) positions.now }
    requires differ { AllPairs (λ (a b : Position). a.name ≢ b.name) positions.now }
    ensures read { IfOk result (λ c. IsSpelled positions.now (listed_trees c)
        × (lines.old.rest.now ≡ text_of (tree_lines positions.now (listed_trees c)))) }
    ensures refused { IfErr result (Fails (AreTreeLines positions.now) lines.old.rest.now lines.old.number) }
{
    let names = NameTable::new(alloc, positions)?;
    read_named(alloc, &names, lines)
}

/// The same, with the positions by their names.
#[tactic(auto, using(text_lines::proofs::GrammarLemmas::fails_of_memory))]
fn read_named(
    alloc: Global,
    names: &NameTable<'_>,
    lines: &mut Lines<'_>,
) -> Result<TreeCertificate, LineFault>
    requires { All (λ (q : Position). IsName q.name) names.now.positions.now }
    ensures read { IfOk result (λ c. IsSpelled names.now.positions.now (listed_trees c)
        × (lines.old.rest.now ≡ text_of (tree_lines names.now.positions.now (listed_trees c)))) }
    ensures refused { IfErr result (Fails (AreTreeLines names.now.positions.now) lines.old.rest.now lines.old.number) }
{
    let claim = next_claim(names, lines)?;
    let cliques = read_section(alloc, &CliqueLines(names), lines)?;
    let prices = next_price_lists(alloc, names, lines)?;
    expect_line(root_word(&claim), lines)?;
    let root = read_section(alloc, &OperationLines(names), lines)?;
    let siblings = next_siblings(alloc, names, lines)?;
    expect_last(b"END", lines)?;
    Ok(TreeCertificate {
        claim,
        cliques,
        prices,
        root,
        siblings,
    })
}
