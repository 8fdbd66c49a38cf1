//! The lines of an aircraft's hold.

ghost use Rattle.std.specs.Prelude.{◌≡◌, ◌++◌, ◌∷◌, [], map, OnOk};
ghost use Rattle.std.specs.List.{enumerate_from};
ghost use Rattle.text_lines.specs.Lines.{text_of};
ghost use Rattle.aircraft_text.specs.AircraftText.{position_line, taken_text, end_word, side_word, limit_lines, lateral_lines};

use crate::words::{Word, push_line, push_words};
use base_words::NoMemory;
use hold_limits::{Combined, Cumulative, Fit, Hold, Position};
use telex::Builder;
use text_lines::{EntryWriter, NamesOf, write_lines, write_run};

/// Kinds with the greatest mass of one.
#[derive(Clone, Copy)]
struct Fits;

/// Excluding pairs of positions of the hold.
#[derive(Clone, Copy)]
struct Excludes<'a>(&'a Hold);

/// Combined limits of the hold.
#[derive(Clone, Copy)]
struct AllCombined<'a>(&'a Hold);

/// Cumulative limits of the hold.
#[derive(Clone, Copy)]
struct AllCumulative<'a>(&'a Hold);

/// Sides of positions of the hold.
#[derive(Clone, Copy)]
struct Sides<'a>(&'a Hold);

impl EntryWriter for Fits {
    ghost use Rattle.aircraft_text.specs.AircraftText.{fit_text};

    type Entry = Fit;

    ghost text = { λ _. fit_text };

    ghost spelled = { λ _ _. Unit {0} };

    fn write(&self, fit: &Fit, out: &mut Builder) -> Result<(), NoMemory> {
        push_words(
            out,
            b"",
            &[Word::Text(fit.kind.as_slice()), Word::Mass(fit.most)],
        )
    }
}

impl EntryWriter for Excludes<'_> {
    ghost use Rattle.aircraft_text.specs.AircraftText.{exclude_line};

    type Entry = (u8, u8);

    ghost text = { λ w. exclude_line w.0.now.positions };

    ghost spelled = { λ _ _. Unit {0} };

    fn write(&self, pair: &(u8, u8), out: &mut Builder) -> Result<(), NoMemory> {
        let hold = self.0;
        push_words(
            out,
            b"exclude",
            &[
                Word::Text(hold.name_at(pair.0)),
                Word::Text(hold.name_at(pair.1)),
            ],
        )
    }
}

impl EntryWriter for AllCombined<'_> {
    ghost use Rattle.aircraft_text.specs.AircraftText.{combined_line};

    type Entry = Combined;

    ghost text = { λ w. combined_line w.0.now.positions };

    ghost spelled = { λ _ _. Unit {0} };

    fn write(&self, limit: &Combined, out: &mut Builder) -> Result<(), NoMemory> {
        push_words(out, b"combined", &[Word::Mass(limit.most)])?;
        write_run(&NamesOf(self.0), limit.places.as_slice(), out)
    }
}

impl EntryWriter for AllCumulative<'_> {
    ghost use Rattle.aircraft_text.specs.AircraftText.{cumulative_line};

    type Entry = Cumulative;

    ghost text = { λ w. cumulative_line w.0.now.positions };

    ghost spelled = { λ _ _. Unit {0} };

    fn write(&self, limit: &Cumulative, out: &mut Builder) -> Result<(), NoMemory> {
        let name = self.0.name_at(limit.place);
        push_words(
            out,
            word_of_end(limit.forward),
            &[Word::Text(name), Word::Mass(limit.most)],
        )
    }
}

impl EntryWriter for Sides<'_> {
    ghost use Rattle.aircraft_text.specs.AircraftText.{side_line};

    type Entry = (u8, bool);

    ghost text = { λ w. side_line w.0.now.positions };

    ghost spelled = { λ _ _. Unit {0} };

    fn write(&self, side: &(u8, bool), out: &mut Builder) -> Result<(), NoMemory> {
        push_words(
            out,
            word_of_side(side.1),
            &[Word::Text(self.0.name_at(side.0))],
        )
    }
}

/// The keyword of a cumulative limit: the end of the hold up to which it counts.
fn word_of_end(forward: bool) -> &'static [u8]
    ensures { result.now ≡ end_word forward }
{
    if forward { b"forward" } else { b"aft" }
}

/// The keyword of a position's side.
fn word_of_side(right: bool) -> &'static [u8]
    ensures { result.now ≡ side_word right }
{
    if right { b"right" } else { b"left" }
}

/// Appends what the position takes, after a space.
fn push_taken(out: &mut Builder, position: &Position) -> Result<(), NoMemory>
    ensures { OnOk result (out.new ≡ out.old ++ taken_text position.now) }
{
    if position.bulk {
        return out.text(b" bulk");
    }
    write_run(&Fits, position.fits.as_slice(), out)
}

/// Appends the line of the position with this number.
fn push_position(out: &mut Builder, number: usize, position: &Position) -> Result<(), NoMemory>
    ensures { OnOk result (out.new ≡ out.old ++ text_of (position_line (number, position.now) ∷ [])) }
{
    push_words(
        out,
        b"position",
        &[
            Word::Number(number as u64),
            Word::Text(position.name.bytes()),
            Word::Text(b"compartment"),
            Word::Number(u64::from(position.compartment)),
            Word::Text(b"influence"),
            Word::Signed(position.influence),
        ],
    )?;
    push_taken(out, position)?;
    out.end_line()
}

/// Appends the positions, numbered from 1.
pub fn push_positions(out: &mut Builder, positions: &[Position]) -> Result<(), NoMemory>
    ensures { OnOk result
        (out.new ≡ out.old ++ text_of (map position_line (enumerate_from 1 positions.now))) }
{
    for (place, position) in positions.iter().enumerate() {
        push_position(out, place + 1, position)?;
    }
    Ok(())
}

/// Appends the limits of the hold but for the lateral one.
pub fn push_hold_limits(out: &mut Builder, hold: &Hold) -> Result<(), NoMemory>
    ensures { OnOk result (out.new ≡ out.old ++ text_of (limit_lines hold.now)) }
{
    write_lines(&Excludes(hold), hold.excludes(), out)?;
    write_lines(&AllCombined(hold), hold.combined(), out)?;
    write_lines(&AllCumulative(hold), hold.cumulative(), out)
}

/// Appends the sides of its positions and its lateral limit, where it has one.
pub fn push_lateral(out: &mut Builder, hold: &Hold) -> Result<(), NoMemory>
    ensures { OnOk result (out.new ≡ out.old ++ text_of (lateral_lines hold.now.positions hold.now.lateral)) }
{
    let Some(lateral) = hold.lateral() else {
        return Ok(());
    };
    write_lines(&Sides(hold), lateral.sides.as_slice(), out)?;
    push_line(out, b"lateral", &[Word::Mass(lateral.most)])
}
