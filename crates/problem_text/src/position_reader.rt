//! The reader of a position line.

ghost use Rattle.std.specs.Prelude.{◌≡◌, ◌≢◌, ℕ, ◌≤◌, Bool, List, ◌∷◌, ◌++◌, All, IfSome, IfNone, IfOk, IsSomeAnd};
ghost use Rattle.mass_units.specs.Spelling.{number_text, signed_text, IsSignedNumber};
ghost use Rattle.hold_parts.specs.declared.lists.Fit.{Fit};
ghost use Rattle.hold_parts.specs.declared.parts.Position.{Position};
ghost use Rattle.hold_parts.specs.Spellings.{IsKind, IsName};
ghost use Rattle.text_lines.specs.Cuts.{Avoids, IsCutAt};
ghost use Rattle.problem_text.specs.WordRuns.{fit_text, IsSpelledFit};
ghost use Rattle.text_lines.specs.WordRuns.{run_text};
ghost use Rattle.problem_text.specs.TaskText.{position_word, position_line, NamesKindsUnlessBulk, IsSpelledPosition};

use base_words::NoMemory;
use hold_limits::{Fit, Fits, Name, Position, is_kind};
use mass_units::{Kg, read_number, read_signed};
use std::alloc::Global;
use text_lines::{after_prefix, cut, split_once};

/// The words of a position line. The kinds and masses at its end are not split yet.
#[derive(Clone, Copy)]
struct Words<'a> {
    bulk: bool,
    name: &'a [u8],
    compartment: &'a [u8],
    influence: &'a [u8],
    /// Each word has a space before it.
    fits: &'a [u8],
}

/// The position of a line `position NAME COMPARTMENT INFLUENCE KIND MOST KIND MOST ..`, or
/// `bulk NAME COMPARTMENT INFLUENCE`.
pub fn read_position(alloc: Global, line: &[u8]) -> Result<Option<Position>, NoMemory>
    ensures found { IfOk result (λ r. IfSome r (λ q. (line.now ≡ position_line q)
        × IsSpelledPosition q)) }
    ensures none { IfOk result (λ r. IfNone r ((q : Position) → IsSpelledPosition q
        → line.now ≢ position_line q)) }
{
    let Some(words) = position_words(line) else {
        return Ok(None);
    };
    let Some(fits) = read_fits(alloc, words.fits)? else {
        return Ok(None);
    };
    Ok(position_of(words, fits))
}

/// Splits the words of a position line.
fn position_words(line: &[u8]) -> Option<Words<'_>>
    ensures found { IfSome result (λ w. line.now
        ≡ position_word w.bulk ++ 32 ∷ (w.name.now ++ 32 ∷ (w.compartment.now ++ 32 ∷ (w.influence.now ++ w.fits.now)))) }
    ensures after_space { IfSome result (λ w. IsCutAt 32 w.fits.now) }
    ensures read_back { (bulk : Bool) (name compartment influence fits : List ℕ)
        → Avoids 32 name → Avoids 32 compartment → Avoids 32 influence → IsCutAt 32 fits
        → line.now ≡ position_word bulk ++ 32 ∷ (name ++ 32 ∷ (compartment ++ 32 ∷ (influence ++ fits)))
        → IsSomeAnd result (λ w. (w.bulk ≡ bulk) × (w.name.now ≡ name)
        × (w.compartment.now ≡ compartment) × (w.influence.now ≡ influence) × (w.fits.now ≡ fits)) }
{
    let (keyword, rest) = split_once(b' ', line)?;
    let bulk = read_keyword(keyword)?;
    let (name, rest) = split_once(b' ', rest)?;
    let (compartment, rest) = split_once(b' ', rest)?;
    let (influence, fits) = cut(b' ', rest);
    Some(Words {
        bulk,
        name,
        compartment,
        influence,
        fits,
    })
}

/// Whether the word begins the line of a bulk position. None where it begins no position line.
fn read_keyword(word: &[u8]) -> Option<bool>
    ensures found { IfSome result (λ bulk. word.now ≡ position_word bulk) }
    ensures none { IfNone result ((bulk : Bool) → word.now ≢ position_word bulk) }
{
    match word {
        b"bulk" => Some(true),
        b"position" => Some(false),
        _ => None,
    }
}

/// The kinds and masses. Each word has a space before it.
fn read_fits(alloc: Global, words: &[u8]) -> Result<Option<Vec<Fit>>, NoMemory>
    requires { IsCutAt 32 words.now }
    ensures found { IfOk result (λ r. IfSome r (λ fits.
        (words.now ≡ run_text fit_text fits.items) × All IsSpelledFit fits.items)) }
    ensures read_back { (fits : List Fit) → All IsSpelledFit fits → words.now ≡ run_text fit_text fits
        → IfOk result (λ r. IsSomeAnd r (λ v. v.items ≡ fits)) }
{
    let mut fits = Vec::new(alloc);
    let mut rest = words;
    while !rest.is_empty() {
        let Some((fit, more)) = next_fit(rest) else {
            return Ok(None);
        };
        fits.push(fit)?;
        rest = more;
    }
    Ok(Some(fits))
}

/// The first kind and mass, and the words after them.
fn next_fit(words: &[u8]) -> Option<(Fit, &[u8])>
    ensures found { IfSome result (λ x. (words.now ≡ fit_text x.0 ++ x.1.now) × IsSpelledFit x.0
        × IsCutAt 32 x.1.now) }
    ensures read_back { (fit : Fit) (rest : List ℕ)
        → IsSpelledFit fit → IsCutAt 32 rest → words.now ≡ fit_text fit ++ rest
        → IsSomeAnd result (λ x. (x.0 ≡ fit) × (x.1.now ≡ rest)) }
{
    let (kind, rest) = split_once(b' ', after_prefix(b" ", words)?)?;
    let kind = read_kind(kind)?;
    let (most, rest) = cut(b' ', rest);
    let most = Kg(read_number(most)?);
    Some((Fit { kind, most }, rest))
}

/// The position with these words and these kinds and masses.
fn position_of(words: Words<'_>, fits: Vec<Fit>) -> Option<Position>
    ensures found { IfSome result (λ q. (words.entry.bulk ≡ q.bulk) × (words.entry.name.now ≡ q.name) × IsName q.name
        × (words.entry.compartment.now ≡ number_text q.compartment) × (q.compartment ≤ 9)
        × (words.entry.influence.now ≡ signed_text q.influence) × IsSignedNumber q.influence
        × (q.fits ≡ fits.items) × NamesKindsUnlessBulk q.bulk q.fits) }
    ensures read_back { (q : Position) → IsSpelledPosition q → words.entry.bulk ≡ q.bulk → words.entry.name.now ≡ q.name
        → words.entry.compartment.now ≡ number_text q.compartment → words.entry.influence.now ≡ signed_text q.influence
        → fits.items ≡ q.fits → result ≡ Some q }
{
    if fits.is_empty() != words.bulk {
        return None;
    }
    let name = Name::read(words.name)?;
    let compartment = read_digit(words.compartment)?;
    let influence = read_signed(words.influence)?;
    Some(Position {
        name,
        compartment,
        influence,
        bulk: words.bulk,
        fits: Fits::from(fits),
    })
}

/// The digit that is the word.
fn read_digit(word: &[u8]) -> Option<u8>
    ensures found { IfSome result (λ digit. (word.now ≡ number_text digit) × (digit ≤ 9)) }
    ensures read_back { (digit : ℕ) → digit ≤ 9 → word.now ≡ number_text digit → result ≡ Some digit }
{
    match read_number(word) {
        Some(n) if n <= 9 => Some(n as u8),
        _ => None,
    }
}

/// The kind that is the word.
fn read_kind(word: &[u8]) -> Option<[u8; 3]>
    ensures found { IfSome result (λ kind. (word.now ≡ kind) × IsKind kind) }
    ensures read_back { IsKind word.now → result ≡ Some word.now }
{
    if !is_kind(word) {
        return None;
    }
    word.try_into().ok()
}
