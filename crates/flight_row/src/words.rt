//! The words of a line, one after another.

ghost use Rattle.std.specs.Prelude.{◌≡◌, ◌≢◌, ℕ, List, [], ◌∷◌, ◌↔◌, IfSome, IfNone, IsTrue};
ghost use Rattle.hold_parts.specs.Spellings.{IsName};
ghost use Rattle.flight_row.specs.Words.{words_in};

use hold_limits::Name;
use std::marker::Model;
use text_lines::split_once;

/// The words of a line that are still to be read. One space stands between two words.
#[derive(Drop)]
pub struct Words<'a> {
    text: &'a [u8],
    read: bool,
}

impl<'a> Model for Words<'a> {
    ghost use Rattle.std.specs.Prelude.{ℕ, List};
    ghost use Rattle.flight_row.specs.Words.{words_left};

    ghost Value = { List (List ℕ) };

    ghost view = { λ w. words_left w.read w.text.now };
}

impl<'a> Words<'a> {
    /// The words of the line.
    pub fn of(line: &'a [u8]) -> Words<'a>
        ensures { result ≡ words_in line.now }
    {
        Words {
            text: line,
            read: false,
        }
    }

    /// The next word. None where all are read.
    pub fn next(&mut self) -> Option<&'a [u8]>
        ensures found { IfSome result (λ word. self.old ≡ word.now ∷ self.new) }
        ensures none { IfNone result (self.old ≡ []) }
    {
        if self.read {
            return None;
        }
        match split_once(b' ', self.text) {
            Some((word, rest)) => {
                self.text = rest;
                Some(word)
            }
            None => {
                self.read = true;
                Some(self.text)
            }
        }
    }

    /// Reads this word. None where another comes next, or none.
    pub fn keyword(&mut self, keyword: &[u8]) -> Option<()>
        ensures found { IfSome result (λ _. self.old ≡ keyword.now ∷ self.new) }
        ensures none { IfNone result ((rest : List (List ℕ)) → self.old ≢ keyword.now ∷ rest) }
    {
        if self.next()? == keyword {
            Some(())
        } else {
            None
        }
    }

    /// Reads the name of a position.
    pub fn name(&mut self) -> Option<Name>
        ensures found { IfSome result (λ name. IsName name × (self.old ≡ name ∷ self.new)) }
        ensures none { IfNone result ((name : List ℕ) (rest : List (List ℕ)) → IsName name → self.old ≢ name ∷ rest) }
    {
        Name::read(self.next()?)
    }

    /// Whether all words are read.
    pub fn is_done(&self) -> bool
        ensures { IsTrue result ↔ (self.now ≡ []) }
    {
        self.read
    }

    /// The end of the line. None where words are left.
    pub fn end(&self) -> Option<()>
        ensures found { IfSome result (λ _. self.now ≡ []) }
        ensures none { IfNone result (self.now ≢ []) }
    {
        if self.read { Some(()) } else { None }
    }
}
