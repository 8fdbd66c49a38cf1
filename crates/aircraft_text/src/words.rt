//! Lines of words.

ghost use Rattle.std.specs.Prelude.{◌≡◌, ◌++◌, ◌∷◌, [], map, OnOk};
ghost use Rattle.text_lines.specs.Lines.{line_of, text_of};
ghost use Rattle.aircraft_text.specs.Words.{word_text};

use base_words::NoMemory;
use mass_units::{Kg, Ticks};
use telex::Builder;

/// A word of a line.
#[derive(Clone, Copy)]
pub enum Word<'a> {
    /// A label or a name.
    Text(&'a [u8]),
    /// A count, a place or a length.
    Number(u64),
    /// A number to either side of zero.
    Signed(i32),
    /// A mass in kilograms.
    Mass(Kg),
    /// An index with all five decimals.
    Index(Ticks),
    /// Hundredths of a percent with two decimals, and `-` for none.
    Percent(Option<i128>),
}

/// Appends the word.
fn push_word(out: &mut Builder, word: &Word) -> Result<(), NoMemory>
    ensures { OnOk result (out.new ≡ out.old ++ word_text word.now) }
{
    match word {
        Word::Text(text) => out.text(text),
        Word::Number(n) => out.count(*n),
        Word::Signed(z) => out.number(i64::from(*z)),
        Word::Mass(mass) => out.mass(*mass),
        Word::Index(index) => out.index(*index),
        Word::Percent(Some(hundredths)) => out.hundredths(*hundredths),
        Word::Percent(None) => out.text(b"-"),
    }
}

/// Appends the keyword and the words, each after a space.
pub fn push_words(out: &mut Builder, keyword: &[u8], words: &[Word]) -> Result<(), NoMemory>
    ensures { OnOk result (out.new ≡ out.old ++ line_of (keyword.now ∷ map word_text words.now)) }
{
    out.text(keyword)?;
    for word in words {
        out.text(b" ")?;
        push_word(out, word)?;
    }
    Ok(())
}

/// Appends the line of the keyword and the words.
pub fn push_line(out: &mut Builder, keyword: &[u8], words: &[Word]) -> Result<(), NoMemory>
    ensures { OnOk result
        (out.new ≡ out.old ++ text_of (line_of (keyword.now ∷ map word_text words.now) ∷ [])) }
{
    push_words(out, keyword, words)?;
    out.end_line()
}
