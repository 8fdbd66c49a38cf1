//! Lines of a certificate of trees, appended to a text.

ghost use Rattle.std.specs.Prelude.{◌≡◌, ◌∷◌, ◌++◌, OnOk};
ghost use Rattle.mass_units.specs.Spelling.{number_text};
ghost use Rattle.hold_limits.specs.Layout.{name_at};
ghost use Rattle.text_lines.specs.WordRuns.{run_text, name_text};
ghost use Rattle.position_set.specs.Sets.{members};
ghost use Rattle.tree_certificate.specs.declared.parts.Operation.TheVariants.{Split};
ghost use Rattle.tree_certificate.specs.TreeText.{end_word, operation_line};

use crate::parts::{End, Operation, Price, PriceList, Sibling};
use base_words::NoMemory;
use hold_limits::Hold;
use position_set::PositionSet;
use telex::Builder;
use text_lines::{EntryWriter, write_lines, write_run};

/// Appends the names of positions, from nose to tail.
fn push_names(out: &mut Builder, hold: &Hold, set: PositionSet) -> Result<(), NoMemory>
    ensures { OnOk result (out.new ≡ out.old ++ run_text (name_text hold.now.positions) (members set)) }
{
    let mut rest = set;
    while let Some(number) = rest.take_first() {
        out.word(hold.name_at(number))?;
    }
    Ok(())
}

/// The name of the position with this number, and nothing where the number is that of no position.
fn name_of(hold: &Hold, number: u32) -> &[u8]
    ensures { result.now ≡ name_at hold.now.positions number }
{
    match hold.positions().get(number as usize) {
        Some(position) => position.name.bytes(),
        None => b"",
    }
}

/// The word before the prices of a list.
fn word_of_end(end: End) -> &'static [u8]
    ensures { result.now ≡ end_word end }
{
    match end {
        End::Low => b"low",
        End::High => b"high",
    }
}

/// Appends a word and a number after a space.
fn push_numbered(out: &mut Builder, word: &[u8], number: u32) -> Result<(), NoMemory>
    ensures { OnOk result (out.new ≡ out.old ++ (word.now ++ 32 ∷ number_text number)) }
{
    out.text(word)?;
    out.text(b" ")?;
    out.count(u64::from(number))
}

/// Appends the words of a split.
fn push_split(out: &mut Builder, hold: &Hold, rank: u8, set: PositionSet) -> Result<(), NoMemory>
    ensures { OnOk result (out.new ≡ out.old ++ operation_line hold.now.positions (Split rank set)) }
{
    push_numbered(out, b"split", u32::from(rank))?;
    push_names(out, hold, set)
}

/// Appends the words of an operation.
fn push_words(out: &mut Builder, hold: &Hold, operation: Operation) -> Result<(), NoMemory>
    ensures { OnOk result (out.new ≡ out.old ++ operation_line hold.now.positions operation) }
{
    match operation {
        Operation::Leaf(list) => push_numbered(out, b"leaf", list),
        Operation::Residue => out.text(b"residue"),
        Operation::Narrow(list) => push_numbered(out, b"narrow", list),
        Operation::Split(rank, set) => push_split(out, hold, rank, set),
    }
}

/// Cliques of positions of the hold.
#[derive(Clone, Copy)]
pub struct Cliques<'a>(pub &'a Hold);

/// Prices of positions of the hold.
#[derive(Clone, Copy)]
struct PositionPrices<'a>(&'a Hold);

/// Prices of limits or of cliques.
#[derive(Clone, Copy)]
struct NumberPrices;

/// Lists of prices over the hold.
#[derive(Clone, Copy)]
pub struct PriceLists<'a>(pub &'a Hold);

/// Operations of a tree over the hold.
#[derive(Clone, Copy)]
pub struct Operations<'a>(pub &'a Hold);

/// Siblings, each with the operations of its tree.
#[derive(Clone, Copy)]
pub struct Siblings<'a>(pub &'a Hold);

impl EntryWriter for Cliques<'_> {
    ghost use Rattle.tree_certificate.specs.TreeText.{clique_line};

    type Entry = PositionSet;

    ghost text = { λ w. clique_line w.0.now.positions };

    ghost spelled = { λ _ _. Unit {0} };

    fn write(&self, clique: &PositionSet, out: &mut Builder) -> Result<(), NoMemory> {
        out.text(b"clique")?;
        push_names(out, self.0, *clique)
    }
}

impl EntryWriter for PositionPrices<'_> {
    ghost use Rattle.hold_limits.specs.Layout.{name_at};
    ghost use Rattle.tree_certificate.specs.TreeText.{price_text};

    type Entry = Price;

    ghost text = { λ w. price_text (name_at w.0.now.positions) };

    ghost spelled = { λ _ _. Unit {0} };

    fn write(&self, price: &Price, out: &mut Builder) -> Result<(), NoMemory> {
        out.word(name_of(self.0, price.of))?;
        out.text(b" ")?;
        out.count(price.price)?;
        Ok(())
    }
}

impl EntryWriter for NumberPrices {
    ghost use Rattle.mass_units.specs.Spelling.{number_text};
    ghost use Rattle.tree_certificate.specs.TreeText.{price_text};

    type Entry = Price;

    ghost text = { λ _. price_text number_text };

    ghost spelled = { λ _ _. Unit {0} };

    fn write(&self, price: &Price, out: &mut Builder) -> Result<(), NoMemory> {
        out.text(b" ")?;
        out.count(u64::from(price.of))?;
        out.text(b" ")?;
        out.count(price.price)?;
        Ok(())
    }
}

impl EntryWriter for PriceLists<'_> {
    ghost use Rattle.tree_certificate.specs.Listed.{listed_prices};
    ghost use Rattle.tree_certificate.specs.TreeText.{price_line};

    type Entry = PriceList;

    ghost text = { λ w list. price_line w.0.now.positions (listed_prices list) };

    ghost spelled = { λ _ _. Unit {0} };

    fn write(&self, list: &PriceList, out: &mut Builder) -> Result<(), NoMemory> {
        out.text(word_of_end(list.end))?;
        write_run(&PositionPrices(self.0), list.positions.as_slice(), out)?;
        out.text(b" ;")?;
        write_run(&NumberPrices, list.limits.as_slice(), out)?;
        out.text(b" ;")?;
        write_run(&NumberPrices, list.cliques.as_slice(), out)?;
        Ok(())
    }
}

impl EntryWriter for Operations<'_> {
    ghost use Rattle.tree_certificate.specs.TreeText.{operation_line};

    type Entry = Operation;

    ghost text = { λ w. operation_line w.0.now.positions };

    ghost spelled = { λ _ _. Unit {0} };

    fn write(&self, operation: &Operation, out: &mut Builder) -> Result<(), NoMemory> {
        push_words(out, self.0, *operation)
    }
}

impl EntryWriter for Siblings<'_> {
    ghost use Rattle.std.specs.Prelude.{◌∷◌, []};
    ghost use Rattle.text_lines.specs.Lines.{text_of};
    ghost use Rattle.tree_certificate.specs.Listed.{listed_sibling};
    ghost use Rattle.tree_certificate.specs.TreeText.{sibling_lines};

    type Entry = Sibling;

    ghost text = { λ w sibling. text_of (sibling_lines w.0.now.positions (listed_sibling sibling ∷ [])) };

    ghost spelled = { λ _ _. Unit {0} };

    fn write(&self, sibling: &Sibling, out: &mut Builder) -> Result<(), NoMemory> {
        push_numbered(out, b"least", u32::from(sibling.rank))?;
        out.word(self.0.name_at(sibling.position))?;
        out.end_line()?;
        write_lines(&Operations(self.0), sibling.operations.as_slice(), out)?;
        Ok(())
    }
}
