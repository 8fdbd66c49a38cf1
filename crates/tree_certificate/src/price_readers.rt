//! Readers of prices.

ghost use Rattle.std.specs.Prelude.{◌≡◌, ◌≢◌, ℕ, List, ◌++◌, All, IfOk, IfSome, IfNone};
ghost use Rattle.hold_parts.specs.Spellings.{IsName};
ghost use Rattle.hold_parts.specs.declared.parts.Position.{Position};
ghost use Rattle.hold_limits.specs.Layout.{name_at};
ghost use Rattle.text_lines.specs.Cuts.{IsCutAt};
ghost use Rattle.text_lines.specs.Names.{IsNamed};
ghost use Rattle.tree_certificate.specs.Listed.{ListedPrices, listed_prices};
ghost use Rattle.tree_certificate.specs.TreeText.{end_word, price_text, prices_text, price_line, IsSpelledPrice, IsSpelledPriceList};
ghost use Rattle.tree_certificate.specs.Reading.{holder_word, IsHolder, HasNoPrice, ArePrices};
ghost use Rattle.tree_certificate.specs.declared.parts.End.{End};

use crate::parts::{End, Price, PriceList};
use base_words::NoMemory;
use certificate::{NameTable, read_wide_number};
use mass_units::read_number;
use std::alloc::Global;
use text_lines::{after_prefix, cut, split_once};

/// What prices are of.
#[derive(Clone, Copy)]
enum Holders<'r, 'a> {
    Positions(&'r NameTable<'a>),
    Numbers,
}

/// The number of the position with this name.
fn number_named(names: &NameTable<'_>, word: &[u8]) -> Option<u32>
    ensures found { IfSome result (λ q. IsNamed names.now.positions.now q × (word.now ≡ name_at names.now.positions.now q)) }
    ensures none { IfNone result ((q : ℕ) → IsNamed names.now.positions.now q → word.now ≢ name_at names.now.positions.now q) }
{
    Some(u32::from(names.number_of(word)?))
}

impl Holders<'_, '_> {
    /// The number of what the word names.
    fn number_of(self, word: &[u8]) -> Option<u32>
        ensures found { IfSome result (λ n. IsHolder self.entry n × (word.now ≡ holder_word self.entry n)) }
        ensures none { IfNone result ((n : ℕ) → IsHolder self.entry n → word.now ≢ holder_word self.entry n) }
    {
        match self {
            Holders::Positions(names) => number_named(names, word),
            Holders::Numbers => read_number(word),
        }
    }
}

/// The first price of a run, and the words after it.
fn next_price<'w>(holders: Holders<'_, '_>, words: &'w [u8]) -> Option<(Price, &'w [u8])>
    ensures found { IfSome result (λ x. IsSpelledPrice (IsHolder holders.entry) x.0
        × (words.now ≡ price_text (holder_word holders.entry) x.0 ++ x.1.now) × IsCutAt 32 x.1.now) }
    ensures none { IfNone result (HasNoPrice (holder_word holders.entry) (IsHolder holders.entry) words.now) }
{
    let (holder, after) = split_once(b' ', after_prefix(b" ", words)?)?;
    let of = holders.number_of(holder)?;
    let (price, rest) = cut(b' ', after);
    let price = read_wide_number(price)?;
    Some((Price { of, price }, rest))
}

/// The prices at the front of a run, and the words from the first on that is not one.
fn read_prices<'w>(
    alloc: Global,
    holders: Holders<'_, '_>,
    words: &'w [u8],
) -> Result<(Vec<Price>, &'w [u8]), NoMemory>
    ensures { IfOk result (λ r. ArePrices (holder_word holders.entry) (IsHolder holders.entry) words.now r.0.items r.1.now) }
{
    let mut prices = Vec::new(alloc);
    let mut rest = words;
    while let Some((price, after)) = next_price(holders, rest) {
        prices.push(price)?;
        rest = after;
    }
    Ok((prices, rest))
}

/// The prices of positions, limits and cliques, over all words after the end.
fn read_three(
    alloc: Global,
    names: &NameTable<'_>,
    end: End,
    words: &[u8],
) -> Result<Option<PriceList>, NoMemory>
    requires named { All (λ (q : Position). IsName q.name) names.now.positions.now }
    requires cut { IsCutAt 32 words.now }
    ensures found { IfOk result (λ r. IfSome r (λ list. IsSpelledPriceList names.now.positions.now (listed_prices list)
        × (list.end ≡ end) × (words.now ≡ prices_text names.now.positions.now (listed_prices list)))) }
    ensures none { IfOk result (λ r. IfNone r ((list : ListedPrices) → IsSpelledPriceList names.now.positions.now list
        → words.now ≢ prices_text names.now.positions.now list)) }
{
    let (positions, after) = read_prices(alloc, Holders::Positions(names), words)?;
    let Some(words) = after_prefix(b" ;", after) else {
        return Ok(None);
    };
    let (limits, after) = read_prices(alloc, Holders::Numbers, words)?;
    let Some(words) = after_prefix(b" ;", after) else {
        return Ok(None);
    };
    let (cliques, rest) = read_prices(alloc, Holders::Numbers, words)?;
    if !rest.is_empty() {
        return Ok(None);
    }
    Ok(Some(PriceList {
        end,
        positions,
        limits,
        cliques,
    }))
}

/// The end that the word names.
fn read_end(word: &[u8]) -> Option<End>
    ensures found { IfSome result (λ end. word.now ≡ end_word end) }
    ensures none { IfNone result ((end : End) → word.now ≢ end_word end) }
{
    match word {
        b"low" => Some(End::Low),
        b"high" => Some(End::High),
        _ => None,
    }
}

/// The prices of a line `low NAME N .. ; L N .. ; E N ..`, or the same with `high`.
pub fn read_price_list(
    alloc: Global,
    names: &NameTable<'_>,
    line: &[u8],
) -> Result<Option<PriceList>, NoMemory>
    requires { All (λ (q : Position). IsName q.name) names.now.positions.now }
    ensures found { IfOk result (λ r. IfSome r (λ list. IsSpelledPriceList names.now.positions.now (listed_prices list)
        × (line.now ≡ price_line names.now.positions.now (listed_prices list)))) }
    ensures none { IfOk result (λ r. IfNone r ((list : ListedPrices) → IsSpelledPriceList names.now.positions.now list
        → line.now ≢ price_line names.now.positions.now list)) }
{
    let (word, words) = cut(b' ', line);
    let Some(end) = read_end(word) else {
        return Ok(None);
    };
    read_three(alloc, names, end, words)
}
