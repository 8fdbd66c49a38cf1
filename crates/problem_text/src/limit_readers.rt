//! Readers of the lines that name positions: limits of the hold, and loose loads.

ghost use Rattle.std.specs.Prelude.{◌≡◌, ◌≢◌, ℕ, Bool, ◌++◌, [], List, map, All, codes, IfSome, IfNone, IfOk, IsSomeAnd};
ghost use Rattle.mass_units.specs.Spelling.{number_text, IsNumber};
ghost use Rattle.hold_parts.specs.declared.parts.Combined.{Combined};
ghost use Rattle.hold_parts.specs.declared.parts.Cumulative.{Cumulative};
ghost use Rattle.hold_parts.specs.declared.parts.Loose.{Loose};
ghost use Rattle.text_lines.specs.Cuts.{IsCutAt};
ghost use Rattle.problem_text.specs.TaskText.{combined_line, cumulative_line, side_line, loose_line, IsSpelledCombined, IsSpelledCumulative, IsSpelledSide, IsSpelledLoose};
ghost use Rattle.text_lines.specs.Names.{IsNamed};
ghost use Rattle.problem_text.specs.PositionNumbers.{keep_combined, keep_cumulative, keep_side, keep_loose};
ghost use Rattle.text_lines.specs.Names.{byte_of};
ghost use Rattle.text_lines.specs.WordRuns.{run_text, name_text};
ghost use Rattle.text_lines.specs.Sections.{Says};

use base_words::NoMemory;
use hold_limits::{Combined, Cumulative, Loose, Places};
use mass_units::{Kg, read_number};
use std::alloc::Global;
use text_lines::{
    Last, MassWord, Names, PositionWord, Then, WordReader, after_prefix, cut, next_position,
    read_said,
};

/// The limit of a line `combined MOST NAME NAME ..`.
pub fn read_combined(
    alloc: Global,
    names: &Names<'_>,
    line: &[u8],
) -> Result<Option<Combined>, NoMemory>
    ensures found { IfOk result (λ r. IfSome r (Says (combined_line names.now.positions.now)
        (IsSpelledCombined names.now.positions.now) keep_combined line.now)) }
    ensures none { IfOk result (λ r. IfNone r ((limit : Combined)
        → IsSpelledCombined names.now.positions.now limit → line.now ≢ combined_line names.now.positions.now limit)) }
{
    let Some((most, words)) = combined_words(line) else {
        return Ok(None);
    };
    let Some(places) = read_positions(alloc, names, words)? else {
        return Ok(None);
    };
    Ok(Some(Combined {
        places: Places::from(places),
        most,
    }))
}

/// The greatest mass on a combined line, and the words after it, of which there is at least one.
fn combined_words(line: &[u8]) -> Option<(Kg, &[u8])>
    ensures found { IfSome result (λ x.
        (line.now ≡ codes "combined " ++ (number_text x.0.0 ++ x.1.now)) × IsNumber x.0.0) }
    ensures words { IfSome result (λ x. IsCutAt 32 x.1.now × (x.1.now ≢ [])) }
    ensures read_back { (most : ℕ) (words : List ℕ) → IsNumber most → IsCutAt 32 words → words ≢ []
        → line.now ≡ codes "combined " ++ (number_text most ++ words)
        → IsSomeAnd result (λ x. (x.0.0 ≡ most) × (x.1.now ≡ words)) }
{
    let (most, words) = cut(b' ', after_prefix(b"combined ", line)?);
    if words.is_empty() {
        return None;
    }
    Some((Kg(read_number(most)?), words))
}

/// The numbers of the positions that the words name. Each word has a space before it.
fn read_positions(
    alloc: Global,
    names: &Names<'_>,
    words: &[u8],
) -> Result<Option<Vec<u8>>, NoMemory>
    requires { IsCutAt 32 words.now }
    ensures found { IfOk result (λ r. IfSome r (λ got. (numbers : List ℕ) × (got.items ≡ map byte_of numbers)
        × All (IsNamed names.now.positions.now) numbers × (words.now ≡ run_text (name_text names.now.positions.now) numbers))) }
    ensures none { IfOk result (λ r. IfNone r ((numbers : List ℕ) → All (IsNamed names.now.positions.now) numbers
        → words.now ≢ run_text (name_text names.now.positions.now) numbers)) }
{
    let mut numbers = Vec::new(alloc);
    let mut rest = words;
    while !rest.is_empty() {
        let Some((number, more)) = next_position(names, rest) else {
            return Ok(None);
        };
        numbers.push(number)?;
        rest = more;
    }
    Ok(Some(numbers))
}

/// The limit of a line `cumulative forward NAME MOST` or `cumulative aft NAME MOST`.
pub fn read_cumulative(names: &Names<'_>, line: &[u8]) -> Option<Cumulative>
    ensures found { IfSome result (Says (cumulative_line names.now.positions.now)
        (IsSpelledCumulative names.now.positions.now) keep_cumulative line.now) }
    ensures none { IfNone result ((limit : Cumulative)
        → IsSpelledCumulative names.now.positions.now limit → line.now ≢ cumulative_line names.now.positions.now limit) }
{
    let fields = Then(EndWord, Then(PositionWord(names), Last(MassWord)));
    let (forward, (place, most)) = read_said(b"cumulative ", &fields, line)?;
    Some(Cumulative {
        forward,
        place,
        most,
    })
}

/// The position of a line `side NAME left` or `side NAME right`, and whether it is on the right.
pub fn read_side(names: &Names<'_>, line: &[u8]) -> Option<(u8, bool)>
    ensures found { IfSome result (Says (side_line names.now.positions.now)
        (IsSpelledSide names.now.positions.now) keep_side line.now) }
    ensures none { IfNone result ((side : ℕ × Bool)
        → IsSpelledSide names.now.positions.now side → line.now ≢ side_line names.now.positions.now side) }
{
    read_said(b"side ", &Then(PositionWord(names), Last(SideWord)), line)
}

/// The load of a line `loose NAME MASS`.
pub fn read_loose(names: &Names<'_>, line: &[u8]) -> Option<Loose>
    ensures found { IfSome result (Says (loose_line names.now.positions.now)
        (IsSpelledLoose names.now.positions.now) keep_loose line.now) }
    ensures none { IfNone result ((load : Loose)
        → IsSpelledLoose names.now.positions.now load → line.now ≢ loose_line names.now.positions.now load) }
{
    let (position, mass) = read_said(b"loose ", &Then(PositionWord(names), Last(MassWord)), line)?;
    Some(Loose { position, mass })
}

/// `forward` or `aft`: whether it is `forward`.
#[derive(Clone, Copy)]
struct EndWord;

/// `right` or `left`: whether it is `right`.
#[derive(Clone, Copy)]
struct SideWord;

impl WordReader for EndWord {
    ghost use Rattle.std.specs.Prelude.{Bool, refl};
    ghost use Rattle.std.proofs.Common.{lit<};
    ghost use Rattle.text_lines.proofs.FieldLemmas.{two_words};
    ghost use Rattle.problem_text.specs.TaskText.{end_word};

    type Value = bool;

    ghost text = { λ _. end_word };

    ghost spelled = { λ _ (_ : Bool). Unit {0} };

    ghost keep = { λ _ forward. forward };

    fn read(&self, word: &[u8]) -> Option<bool> {
        match word {
            b"forward" => Some(true),
            b"aft" => Some(false),
            _ => None,
        }
    }

    ghost plain = { λ _. (two_words end_word refl refl refl).avoids 32 (lit< tt) };
}

impl WordReader for SideWord {
    ghost use Rattle.std.specs.Prelude.{Bool, refl};
    ghost use Rattle.std.proofs.Common.{lit<};
    ghost use Rattle.text_lines.proofs.FieldLemmas.{two_words};
    ghost use Rattle.problem_text.specs.TaskText.{side_word};

    type Value = bool;

    ghost text = { λ _. side_word };

    ghost spelled = { λ _ (_ : Bool). Unit {0} };

    ghost keep = { λ _ right. right };

    fn read(&self, word: &[u8]) -> Option<bool> {
        match word {
            b"right" => Some(true),
            b"left" => Some(false),
            _ => None,
        }
    }

    ghost plain = { λ _. (two_words side_word refl refl refl).avoids 32 (lit< tt) };
}
