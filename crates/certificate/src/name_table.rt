//! The positions of a hold by their names.

ghost use Rattle.std.specs.Prelude.{◌≡◌, ◌≢◌, ℕ, ◌≤◌, List, ◌++◌, length, All, AllPairs, IfOk, IfSome, IfNone, IsTrue};
ghost use Rattle.hold_limits.specs.Layout.{name_at};
ghost use Rattle.hold_parts.specs.Spellings.{IsName};
ghost use Rattle.hold_parts.specs.declared.parts.Position.{Position};
ghost use Rattle.text_lines.specs.Cuts.{Avoids, IsCutAt};
ghost use Rattle.text_lines.specs.Names.{IsNamed};
ghost use Rattle.text_lines.specs.WordRuns.{name_text};

use base_words::NoMemory;
use hold_limits::Position;
use std::alloc::Global;
use text_lines::{Names, after_prefix, cut};

/// The numbers of positions by their names. A certificate names few positions again and again, so a guess at the number
/// of a name is looked at first.
#[derive(Drop)]
pub struct NameTable<'a> {
    pub positions: &'a [Position],
    names: Names<'a>,
    /// The number of some position with a name that has this place.
    guesses: [u8; 256],
    ghost same: { names.positions.now ≡ positions.now },
    ghost few: { length positions.now ≤ 64 },
    ghost differ: { AllPairs (λ (a b : Position). a.name ≢ b.name) positions.now },
    ghost clear: { All (λ (q : Position). Avoids 32 q.name) positions.now },
}

/// The place of a name among the guesses.
fn place_of(name: &[u8]) -> u8 {
    let mut place = 0u8;
    for byte in name {
        place = place.wrapping_mul(37).wrapping_add(*byte);
    }
    place
}

impl<'a> NameTable<'a> {
    /// The names of the positions of a lawful hold.
    pub fn new(alloc: Global, positions: &'a [Position]) -> Result<NameTable<'a>, NoMemory>
        requires few { length positions.now ≤ 64 }
        requires named { All (λ (q : Position). IsName q.name) positions.now }
        requires differ { AllPairs (λ (a b : Position). a.name ≢ b.name) positions.now }
        ensures { IfOk result (λ table. table.positions.now ≡ positions.now) }
    {
        let names = Names::new(alloc, positions)?;
        let mut guesses = [0; 256];
        for (number, position) in positions.iter().enumerate() {
            guesses[usize::from(place_of(position.name.bytes()))] = number as u8;
        }
        Ok(NameTable {
            positions,
            names,
            guesses,
        })
    }

    /// Whether the position with this number has the name.
    fn is_named(&self, number: u8, name: &[u8]) -> bool
        ensures { IsTrue result → IsNamed self.now.positions.now number × (name.now ≡ name_at self.now.positions.now number) }
    {
        match self.positions.get(number as usize) {
            Some(position) => position.name.bytes() == name,
            None => false,
        }
    }

    /// The number of the position with this name. None exactly where there is no such position.
    pub fn number_of(&self, name: &[u8]) -> Option<u8>
        ensures found { IfSome result (λ q. IsNamed self.now.positions.now q × (name.now ≡ name_at self.now.positions.now q)) }
        ensures none { IfNone result ((q : ℕ) → IsNamed self.now.positions.now q
            → name.now ≢ name_at self.now.positions.now q) }
    {
        let guess = self.guesses[usize::from(place_of(name))];
        if self.is_named(guess, name) {
            return Some(guess);
        }
        self.names.number_of(name)
    }

    /// The number of the position that the first word names, and the words after it.
    pub fn next_number<'b>(&self, words: &'b [u8]) -> Option<(u8, &'b [u8])>
        ensures found { IfSome result (λ x. IsNamed self.now.positions.now x.0
            × (words.now ≡ name_text self.now.positions.now x.0 ++ x.1.now)) }
        ensures rest { IfSome result (λ x. IsCutAt 32 x.1.now) }
        ensures none { IfNone result ((q : ℕ) (rest : List ℕ) → IsNamed self.now.positions.now q → IsCutAt 32 rest
            → words.now ≢ name_text self.now.positions.now q ++ rest) }
    {
        let (name, rest) = cut(b' ', after_prefix(b" ", words)?);
        Some((self.number_of(name)?, rest))
    }
}
