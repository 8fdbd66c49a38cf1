//! Positions by their names.

ghost use Rattle.std.specs.Prelude.{◌≡◌, ◌≢◌, ℕ, List, ◌++◌, All, IfOk, IfSome, IfNone};
ghost use Rattle.hold_parts.specs.declared.parts.Position.{Position};
ghost use Rattle.text_lines.specs.Cuts.{Avoids, IsCutAt};
ghost use Rattle.text_lines.specs.Names.{IsNamed};
ghost use Rattle.hold_limits.specs.Layout.{name_at};
ghost use Rattle.text_lines.specs.WordRuns.{name_text};
ghost use Rattle.text_lines.specs.Names.{byte_of};

use crate::cuts::{after_prefix, cut};
use base_words::NoMemory;
use hold_limits::Position;
use hold_parts::PositionNames;
use std::alloc::Global;

/// The numbers of positions by their names, none of which has a space, so that a text can name them in words.
#[derive(Drop)]
pub struct Names<'a> {
    pub positions: &'a [Position],
    numbers: PositionNames<'a>,
    ghost same: { numbers.positions.now ≡ positions.now },
    ghost clear: { All (λ (q : Position). Avoids 32 q.name) positions.now },
}

impl<'a> Names<'a> {
    /// The names of the positions.
    pub fn new(alloc: Global, positions: &'a [Position]) -> Result<Names<'a>, NoMemory>
        requires { All (λ (q : Position). Avoids 32 q.name) positions.now }
        ensures { IfOk result (λ names. names.positions.now ≡ positions.now) }
    {
        Ok(Names {
            positions,
            numbers: PositionNames::new(alloc, positions)?,
        })
    }

    /// The number of the position with this name. None exactly where there is no such position.
    pub fn number_of(&self, name: &[u8]) -> Option<u8>
        ensures found { IfSome result (λ q. (number : ℕ) × IsNamed self.now.positions.now number
            × (name.now ≡ name_at self.now.positions.now number) × (q ≡ byte_of number)) }
        ensures none { IfNone result ((number : ℕ) → IsNamed self.now.positions.now number
            → name.now ≢ name_at self.now.positions.now number) }
        ensures clear { All (λ (q : Position). Avoids 32 q.name) self.now.positions.now }
    {
        let number = self.numbers.number_of(name)?;
        Some(byte_of(number))
    }
}

/// The number as a byte, and 255 where it does not fit: a hold with so many positions is refused anyway.
fn byte_of(number: usize) -> u8
    ensures { result ≡ byte_of number }
{
    u8::try_from(number).unwrap_or(u8::MAX)
}

/// The number of the position that the first word names, and the words after it.
pub fn next_position<'a>(names: &Names<'_>, words: &'a [u8]) -> Option<(u8, &'a [u8])>
    ensures found { IfSome result (λ x. (number : ℕ) × (x.0 ≡ byte_of number) × IsNamed names.now.positions.now number
        × (words.now ≡ name_text names.now.positions.now number ++ x.1.now)) }
    ensures rest { IfSome result (λ x. IsCutAt 32 x.1.now) }
    ensures none { IfNone result ((number : ℕ) (rest : List ℕ) → IsNamed names.now.positions.now number → IsCutAt 32 rest
        → words.now ≢ name_text names.now.positions.now number ++ rest) }
{
    let (name, rest) = cut(b' ', after_prefix(b" ", words)?);
    Some((names.number_of(name)?, rest))
}
