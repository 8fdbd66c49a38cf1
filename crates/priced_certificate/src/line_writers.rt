//! Lines of a cut with its prices, appended to a text.

ghost use Rattle.std.specs.Prelude.{◌≡◌, ◌∷◌, [], ◌++◌, All, OnOk};
ghost use Rattle.text_lines.specs.Lines.{text_of};
ghost use Rattle.priced_certificate.specs.PricedText.{end_line, lines_of_cut, lines_of_cuts, IsShortCut};

use crate::parts::PricedCut;
use base_words::NoMemory;
use certificate::push_path;
use hold_limits::Hold;
use telex::Builder;
use text_lines::{EntryWriter, write_run};

/// Prices, each after a space.
#[derive(Clone, Copy)]
struct PriceWords;

impl EntryWriter for PriceWords {
    ghost use Rattle.priced_certificate.specs.PricedText.{price_word};

    type Entry = i64;

    ghost text = { λ _. price_word };

    ghost spelled = { λ _ _. Unit {0} };

    fn write(&self, price: &i64, out: &mut Builder) -> Result<(), NoMemory> {
        out.text(b" ")?;
        out.number(*price)
    }
}

/// Appends the line of a word and the prices of one end.
fn push_end(out: &mut Builder, word: &[u8], items: &[i64], places: &[i64]) -> Result<(), NoMemory>
    ensures { OnOk result (out.new ≡ out.old ++ (end_line word.now items.now places.now ++ 10 ∷ [])) }
{
    out.text(word)?;
    write_run(&PriceWords, items, out)?;
    out.text(b" ;")?;
    write_run(&PriceWords, places, out)?;
    out.end_line()
}

/// Appends the lines of a cut.
fn push_cut(out: &mut Builder, hold: &Hold, cut: &PricedCut) -> Result<(), NoMemory>
    ensures written { OnOk result (out.new ≡ out.old ++ text_of (lines_of_cut hold.now.positions cut.now)) }
    ensures short { OnOk result (IsShortCut cut.now) }
{
    let prices = &cut.prices;
    push_path(out, hold, b"cut", &cut.prefix)?;
    push_end(
        out,
        b"lower",
        prices.lower_items.as_slice(),
        prices.lower_places.as_slice(),
    )?;
    push_end(
        out,
        b"upper",
        prices.upper_items.as_slice(),
        prices.upper_places.as_slice(),
    )
}

/// Appends the lines of cuts.
pub fn push_cuts(out: &mut Builder, hold: &Hold, cuts: &[PricedCut]) -> Result<(), NoMemory>
    ensures written { OnOk result (out.new ≡ out.old ++ text_of (lines_of_cuts hold.now.positions cuts.now)) }
    ensures short { OnOk result (All IsShortCut cuts.now) }
{
    for cut in cuts {
        push_cut(out, hold, cut)?;
    }
    Ok(())
}
