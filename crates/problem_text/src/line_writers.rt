//! Writers of the lines of a task.

ghost use Rattle.std.specs.Prelude.{◌≡◌, [], ◌∷◌, ◌++◌, OnOk};
ghost use Rattle.mass_units.specs.Spelling.{number_text, signed_text, index_text};
ghost use Rattle.problem_text.specs.TaskText.{position_word, end_word, side_word, lateral_line};
ghost use Rattle.text_lines.specs.Lines.{line_of};

use base_words::NoMemory;
use hold_limits::{Combined, Cumulative, Fit, Hold, Item, Loose, Position};
use mass_units::{Kg, Ticks};
use telex::Builder;
use text_lines::{EntryWriter, NamesOf, write_run};

/// The first word of a position's line.
fn word_of_position(bulk: bool) -> &'static [u8]
    ensures { result.now ≡ position_word bulk }
{
    if bulk { b"bulk" } else { b"position" }
}

/// The word for the end of the hold up to which a cumulative limit counts.
fn word_of_end(forward: bool) -> &'static [u8]
    ensures { result.now ≡ end_word forward }
{
    if forward { b"forward" } else { b"aft" }
}

/// The word for the side of a position.
fn word_of_side(right: bool) -> &'static [u8]
    ensures { result.now ≡ side_word right }
{
    if right { b"right" } else { b"left" }
}

/// Appends a mass after a space.
fn push_mass(out: &mut Builder, mass: Kg) -> Result<(), NoMemory>
    ensures { OnOk result (out.new ≡ out.old ++ 32 ∷ number_text mass.0) }
{
    out.text(b" ")?;
    out.mass(mass)
}

/// Appends a number after a space.
fn push_number(out: &mut Builder, number: u8) -> Result<(), NoMemory>
    ensures { OnOk result (out.new ≡ out.old ++ 32 ∷ number_text number) }
{
    out.text(b" ")?;
    out.count(u64::from(number))
}

/// Appends the influence of a position after a space.
fn push_influence(out: &mut Builder, position: &Position) -> Result<(), NoMemory>
    ensures { OnOk result
        (out.new ≡ out.old ++ 32 ∷ signed_text position.now.influence) }
{
    out.text(b" ")?;
    out.number(i64::from(position.influence))
}

/// Appends an index after a space.
fn push_index(out: &mut Builder, index: Ticks) -> Result<(), NoMemory>
    ensures { OnOk result (out.new ≡ out.old ++ 32 ∷ index_text index.0) }
{
    out.text(b" ")?;
    out.index(index)
}

/// Kinds with their greatest masses.
#[derive(Clone, Copy)]
struct Fits;

/// Positions.
#[derive(Clone, Copy)]
pub struct Positions;

/// Excluding pairs of positions of the hold.
#[derive(Clone, Copy)]
pub struct Excludes<'a>(pub &'a Hold);

/// Combined limits of the hold.
#[derive(Clone, Copy)]
pub struct AllCombined<'a>(pub &'a Hold);

/// Cumulative limits of the hold.
#[derive(Clone, Copy)]
pub struct AllCumulative<'a>(pub &'a Hold);

/// Sides of positions of the hold.
#[derive(Clone, Copy)]
pub struct Sides<'a>(pub &'a Hold);

/// Containers.
#[derive(Clone, Copy)]
pub struct Items;

/// Loose loads in positions of the hold.
#[derive(Clone, Copy)]
pub struct AllLoose<'a>(pub &'a Hold);

impl EntryWriter for Fits {
    ghost use Rattle.problem_text.specs.WordRuns.{fit_text};

    type Entry = Fit;

    ghost text = { λ _. fit_text };

    ghost spelled = { λ _ _. Unit {0} };

    fn write(&self, fit: &Fit, out: &mut Builder) -> Result<(), NoMemory> {
        out.word(fit.kind.as_slice())?;
        push_mass(out, fit.most)
    }
}

impl EntryWriter for Positions {
    ghost use Rattle.hold_parts.specs.Spellings.{IsName};
    ghost use Rattle.problem_text.specs.TaskText.{position_line};

    type Entry = Position;

    ghost text = { λ _. position_line };

    ghost spelled = { λ _ position. IsName position.name };

    fn write(&self, position: &Position, out: &mut Builder) -> Result<(), NoMemory> {
        let name = position.name.bytes();
        out.text(word_of_position(position.bulk))?;
        out.word(name)?;
        push_number(out, position.compartment)?;
        push_influence(out, position)?;
        write_run(&Fits, position.fits.as_slice(), out)
    }
}

impl EntryWriter for Excludes<'_> {
    ghost use Rattle.problem_text.specs.TaskText.{exclude_line};

    type Entry = (u8, u8);

    ghost text = { λ w. exclude_line w.0.now.positions };

    ghost spelled = { λ _ _. Unit {0} };

    fn write(&self, pair: &(u8, u8), out: &mut Builder) -> Result<(), NoMemory> {
        out.text(b"exclude")?;
        out.word(self.0.name_at(pair.0))?;
        out.word(self.0.name_at(pair.1))
    }
}

impl EntryWriter for AllCombined<'_> {
    ghost use Rattle.problem_text.specs.TaskText.{combined_line};

    type Entry = Combined;

    ghost text = { λ w. combined_line w.0.now.positions };

    ghost spelled = { λ _ _. Unit {0} };

    fn write(&self, limit: &Combined, out: &mut Builder) -> Result<(), NoMemory> {
        out.text(b"combined")?;
        push_mass(out, limit.most)?;
        write_run(&NamesOf(self.0), limit.places.as_slice(), out)
    }
}

impl EntryWriter for AllCumulative<'_> {
    ghost use Rattle.problem_text.specs.TaskText.{cumulative_line};

    type Entry = Cumulative;

    ghost text = { λ w. cumulative_line w.0.now.positions };

    ghost spelled = { λ _ _. Unit {0} };

    fn write(&self, limit: &Cumulative, out: &mut Builder) -> Result<(), NoMemory> {
        out.text(b"cumulative")?;
        out.word(word_of_end(limit.forward))?;
        out.word(self.0.name_at(limit.place))?;
        push_mass(out, limit.most)
    }
}

impl EntryWriter for Sides<'_> {
    ghost use Rattle.problem_text.specs.TaskText.{side_line};

    type Entry = (u8, bool);

    ghost text = { λ w. side_line w.0.now.positions };

    ghost spelled = { λ _ _. Unit {0} };

    fn write(&self, side: &(u8, bool), out: &mut Builder) -> Result<(), NoMemory> {
        out.text(b"side")?;
        out.word(self.0.name_at(side.0))?;
        out.word(word_of_side(side.1))
    }
}

impl EntryWriter for Items {
    ghost use Rattle.hold_parts.specs.Spellings.{IsUldId};
    ghost use Rattle.problem_text.specs.TaskText.{item_line};

    type Entry = Item;

    ghost text = { λ _. item_line };

    ghost spelled = { λ _ item. IsUldId item.id };

    fn write(&self, item: &Item, out: &mut Builder) -> Result<(), NoMemory> {
        out.text(b"item")?;
        out.word(item.id.bytes())?;
        push_mass(out, item.mass)
    }
}

impl EntryWriter for AllLoose<'_> {
    ghost use Rattle.problem_text.specs.TaskText.{loose_line};

    type Entry = Loose;

    ghost text = { λ w. loose_line w.0.now.positions };

    ghost spelled = { λ _ _. Unit {0} };

    fn write(&self, load: &Loose, out: &mut Builder) -> Result<(), NoMemory> {
        out.text(b"loose")?;
        out.word(self.0.name_at(load.position))?;
        push_mass(out, load.mass)
    }
}

/// Appends the line of the greatest lateral difference.
pub fn push_lateral_most(out: &mut Builder, most: Kg) -> Result<(), NoMemory>
    ensures { OnOk result
        (out.new ≡ out.old ++ (lateral_line most.0 ++ 10 ∷ [])) }
{
    out.text(b"lateral")?;
    push_mass(out, most)?;
    out.end_line()
}

/// Appends a line of a word and an index.
pub fn push_index_line(out: &mut Builder, word: &[u8], index: Ticks) -> Result<(), NoMemory>
    ensures { OnOk result
        (out.new ≡ out.old ++ (line_of (word.now ∷ index_text index.0 ∷ []) ++ 10 ∷ [])) }
{
    out.text(word)?;
    push_index(out, index)?;
    out.end_line()
}

/// Appends a line of a word and a band of indices.
pub fn push_band_line(
    out: &mut Builder,
    word: &[u8],
    low: Ticks,
    high: Ticks,
) -> Result<(), NoMemory>
    ensures { OnOk result
        (out.new ≡ out.old ++ (line_of (word.now ∷ index_text low.0 ∷ index_text high.0 ∷ []) ++ 10 ∷ [])) }
{
    out.text(word)?;
    push_index(out, low)?;
    push_index(out, high)?;
    out.end_line()
}
