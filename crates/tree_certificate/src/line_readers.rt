//! Readers of the other lines of a certificate after its claim.

ghost use Rattle.std.specs.Prelude.{◌≡◌, ◌≢◌, ◌<◌, ◌↔◌, ℕ, true, ◌++◌, IsTrue, IfSome, IfNone};
ghost use Rattle.mass_units.specs.Spelling.{number_text, IsNumber};
ghost use Rattle.text_lines.specs.Cuts.{IsCutAt};
ghost use Rattle.text_lines.specs.WordRuns.{run_text, name_text};
ghost use Rattle.position_set.specs.declared.set.PositionSet.{PositionSet};
ghost use Rattle.position_set.specs.Sets.{has, members};
ghost use Rattle.tree_certificate.specs.declared.parts.Operation.{Operation};
ghost use Rattle.tree_certificate.specs.declared.parts.Operation.TheVariants.{Split};
ghost use Rattle.tree_certificate.specs.TreeText.{clique_line, operation_line, least_line, IsSpelledSet, IsSpelledOperation, IsSpelledLeast};

use crate::parts::Operation;
use base_words::NoMemory;
use certificate::NameTable;
use mass_units::read_number;
use position_set::PositionSet;
use std::alloc::Global;
use text_lines::{LineReader, after_prefix, cut, split_once};

/// The word before a clique.
const CLIQUE: &[u8] = b"clique";

/// The line of the reason that takes no prices and no names.
const RESIDUE: &[u8] = b"residue";

/// Whether the number is above all numbers of the set.
fn is_past(set: PositionSet, number: u8) -> bool
    ensures { IsTrue result ↔ ((q : ℕ) → has set q ≡ true → q < number) }
{
    match set.last() {
        Some(last) => last < number,
        None => true,
    }
}

/// The positions that the words name, from nose to tail, each word after a space.
fn named_set(names: &NameTable<'_>, words: &[u8]) -> Option<PositionSet>
    requires words { IsCutAt 32 words.now }
    ensures found { IfSome result (λ set. IsSpelledSet names.now.positions.now set
        × (words.now ≡ run_text (name_text names.now.positions.now) (members set))) }
    ensures none { IfNone result ((set : PositionSet) → IsSpelledSet names.now.positions.now set
        → words.now ≢ run_text (name_text names.now.positions.now) (members set)) }
{
    let mut set = PositionSet::empty();
    let mut rest = words;
    while !rest.is_empty() {
        let Some((number, more)) = names.next_number(rest) else {
            return None;
        };
        if !is_past(set, number) {
            return None;
        }
        set = set.with(number);
        rest = more;
    }
    Some(set)
}

/// The positions of a line `clique NAME NAME ..`.
fn read_clique(names: &NameTable<'_>, line: &[u8]) -> Option<PositionSet>
    ensures found { IfSome result (λ set. IsSpelledSet names.now.positions.now set
        × (line.now ≡ clique_line names.now.positions.now set)) }
    ensures none { IfNone result ((set : PositionSet) → IsSpelledSet names.now.positions.now set
        → line.now ≢ clique_line names.now.positions.now set) }
{
    let (word, words) = cut(b' ', line);
    if word != CLIQUE {
        return None;
    }
    named_set(names, words)
}

/// The number after this word and its space.
fn read_numbered(word: &[u8], line: &[u8]) -> Option<u32>
    ensures found { IfSome result (λ n. IsNumber n × (line.now ≡ word.now ++ number_text n)) }
    ensures none { IfNone result ((n : ℕ) → IsNumber n → line.now ≢ word.now ++ number_text n) }
{
    read_number(after_prefix(word, line)?)
}

/// The number of one byte that the text spells.
fn read_rank(text: &[u8]) -> Option<u8>
    ensures some { IfSome result (λ n. text.now ≡ number_text n) }
    ensures none { IfNone result ((n : ℕ) → n < 256 → text.now ≢ number_text n) }
{
    match read_number(text) {
        Some(n) if n <= 255 => Some(n as u8),
        _ => None,
    }
}

/// The operation of a line `split I NAME ..`.
fn read_split(names: &NameTable<'_>, line: &[u8]) -> Option<Operation>
    ensures found { IfSome result (λ operation. IsSpelledOperation names.now.positions.now operation
        × (line.now ≡ operation_line names.now.positions.now operation)) }
    ensures none { IfNone result ((rank : ℕ) (set : PositionSet) → rank < 256 → IsSpelledSet names.now.positions.now set
        → line.now ≢ operation_line names.now.positions.now (Split rank set)) }
{
    let (rank, words) = cut(b' ', after_prefix(b"split ", line)?);
    let rank = read_rank(rank)?;
    Some(Operation::Split(rank, named_set(names, words)?))
}

/// The operation of a line `leaf V`, `residue`, `narrow V` or `split I NAME ..`.
fn read_operation(names: &NameTable<'_>, line: &[u8]) -> Option<Operation>
    ensures found { IfSome result (λ operation. IsSpelledOperation names.now.positions.now operation
        × (line.now ≡ operation_line names.now.positions.now operation)) }
    ensures none { IfNone result ((operation : Operation) → IsSpelledOperation names.now.positions.now operation
        → line.now ≢ operation_line names.now.positions.now operation) }
{
    if line == RESIDUE {
        return Some(Operation::Residue);
    }
    if let Some(list) = read_numbered(b"leaf ", line) {
        return Some(Operation::Leaf(list));
    }
    if let Some(list) = read_numbered(b"narrow ", line) {
        return Some(Operation::Narrow(list));
    }
    read_split(names, line)
}

/// The rank and the position of a line `least K NAME`.
pub fn read_least(names: &NameTable<'_>, line: &[u8]) -> Option<(u8, u8)>
    ensures found { IfSome result (λ at. IsSpelledLeast names.now.positions.now at
        × (line.now ≡ least_line names.now.positions.now at)) }
    ensures none { IfNone result ((at : ℕ × ℕ) → IsSpelledLeast names.now.positions.now at
        → line.now ≢ least_line names.now.positions.now at) }
{
    let (rank, name) = split_once(b' ', after_prefix(b"least ", line)?)?;
    let rank = read_rank(rank)?;
    Some((rank, names.number_of(name)?))
}

/// `clique NAME NAME ..`.
#[derive(Clone, Copy)]
pub struct CliqueLines<'r, 'a>(pub &'r NameTable<'a>);

/// `leaf V`, `residue`, `narrow V` or `split I NAME ..`.
#[derive(Clone, Copy)]
pub struct OperationLines<'r, 'a>(pub &'r NameTable<'a>);

impl LineReader for CliqueLines<'_, '_> {
    ghost use Rattle.tree_certificate.specs.TreeText.{clique_line, IsSpelledSet};

    type Entry = PositionSet;

    ghost text = { λ r. clique_line r.0.now.positions.now };

    ghost spelled = { λ r. IsSpelledSet r.0.now.positions.now };

    ghost keep = { λ _ x. x };

    fn read(&self, _alloc: Global, line: &[u8]) -> Result<Option<PositionSet>, NoMemory> {
        Ok(read_clique(self.0, line))
    }
}

impl LineReader for OperationLines<'_, '_> {
    ghost use Rattle.tree_certificate.specs.TreeText.{operation_line, IsSpelledOperation};

    type Entry = Operation;

    ghost text = { λ r. operation_line r.0.now.positions.now };

    ghost spelled = { λ r. IsSpelledOperation r.0.now.positions.now };

    ghost keep = { λ _ x. x };

    fn read(&self, _alloc: Global, line: &[u8]) -> Result<Option<Operation>, NoMemory> {
        Ok(read_operation(self.0, line))
    }
}
