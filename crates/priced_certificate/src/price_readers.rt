//! Readers of lines of prices.

ghost use Rattle.std.specs.Prelude.{◌≡◌, ◌≢◌, ◌+◌, ◌∷◌, ◌++◌, ℕ, ℤ, List, IfOk, IfErr, OnOk, IfSome, IfNone};
ghost use Rattle.text_lines.specs.Cuts.{IsCutAt};
ghost use Rattle.text_lines.specs.Lines.{IsStopped};
ghost use Rattle.text_lines.specs.WordRuns.{run_text};
ghost use Rattle.priced_certificate.specs.PricedText.{price_word, end_line, IsSpelledPrice, AreSpelledPrices, IsSpelledEnd};
ghost use Rattle.priced_certificate.specs.Reading.{HasNoPrice, ArePrices, IsEndLine};

use crate::price_words::read_price;
use arrayvec::ArrayVec;
use text_lines::{LineFault, Lines, after_prefix, cut};

/// Prices for one end of the hold indices: of the containers that a prefix leaves, and of the positions of the hold.
#[derive(Drop)]
pub struct EndPrices {
    pub items: ArrayVec<i64, 60>,
    pub places: ArrayVec<i64, 64>,
}

/// The price that the first word is, and the words after it.
fn next_price(words: &[u8]) -> Option<(i64, &[u8])>
    ensures found { IfSome result (λ x. IsSpelledPrice x.0 × (words.now ≡ price_word x.0 ++ x.1.now) × IsCutAt 32 x.1.now) }
    ensures none { IfNone result (HasNoPrice words.now) }
{
    let (word, rest) = cut(b' ', after_prefix(b" ", words)?);
    Some((read_price(word)?, rest))
}

/// The prices at the front of the words, and the words from the first on that is not one. None where they are more than
/// there is room for.
fn read_prices<const N: usize>(words: &[u8]) -> Option<(ArrayVec<i64, N>, &[u8])>
    ensures found { IfSome result (λ x. ArePrices N words.now x.0.items x.1.now) }
    ensures none { IfNone result ((prices : List ℤ) (rest : List ℕ) → AreSpelledPrices N prices → IsCutAt 32 rest → HasNoPrice rest
        → words.now ≢ run_text price_word prices ++ rest) }
{
    let mut prices = ArrayVec::new();
    let mut rest = words;
    while let Some((price, after)) = next_price(rest) {
        if prices.is_full() {
            return None;
        }
        prices.push(price);
        rest = after;
    }
    Some((prices, rest))
}

/// The prices of a line `lower N N .. ; N N ..`, or of one with another word.
fn read_end(word: &[u8], line: &[u8]) -> Option<EndPrices>
    ensures found { IfSome result (λ p. IsSpelledEnd p.items.items p.places.items
        × (line.now ≡ end_line word.now p.items.items p.places.items)) }
    ensures none { IfNone result (IsEndLine word.now line.now → ⊥) }
{
    let (items, after) = read_prices(after_prefix(word, line)?)?;
    let (places, rest) = read_prices(after_prefix(b" ;", after)?)?;
    if !rest.is_empty() {
        return None;
    }
    Some(EndPrices { items, places })
}

/// The prices of one end, on the next line.
pub fn next_end(word: &[u8], lines: &mut Lines<'_>) -> Result<EndPrices, LineFault>
    ensures read { IfOk result (λ p. IsSpelledEnd p.items.items p.places.items
        × (lines.old.rest.now ≡ end_line word.now p.items.items p.places.items ++ 10 ∷ lines.new.rest.now)) }
    ensures counted { OnOk result (lines.new.number ≡ lines.old.number + 1) }
    ensures refused { IfErr result (IsStopped lines.old.rest.now lines.old.number (IsEndLine word.now)) }
{
    let number = lines.number;
    read_end(word, lines.next_line()?).ok_or(LineFault::Line(number))
}
