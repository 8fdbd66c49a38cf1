//! The small texts of a hold: names of positions and identities of containers.

ghost use Rattle.std.specs.Prelude.{◌≡◌, IfSome, IfNone, take};
ghost use Rattle.hold_parts.specs.Spellings.{IsName, IsUldId};

use crate::spellings::{is_name, is_uld_id};
use base_words::Letters;
use std::marker::Model;

/// A position's name: 1 to 3 of A to Z and 0 to 9.
#[derive(Clone, Copy, Debug)]
pub struct Name {
    letters: Letters<3>,
}

impl Model for Name {
    ghost use Rattle.std.specs.Prelude.{ℕ, List};
    ghost use Rattle.hold_parts.specs.Spellings.{IsName};

    ghost Value = { List ℕ };

    ghost view = { λ n. n.letters };

    ghost inverse = { λ letters. record { letters = letters } };

    ghost invariant = { λ n. IsName n.letters };
}

impl Name {
    /// The name that the text spells, and None exactly where it spells none.
    pub fn read(text: &[u8]) -> Option<Name>
        ensures some { IfSome result (λ name. (name ≡ text.now) × IsName text.now) }
        ensures none { IfNone result (IsName text.now → ⊥) }
    {
        if !is_name(text) {
            return None;
        }
        let letters = Letters::read(text)?;
        Some(Name { letters })
    }

    /// The letters of the name.
    pub fn bytes(&self) -> &[u8]
        ensures value { result.now ≡ self.now }
        ensures spelled { IsName self.now }
    {
        self.letters.as_slice()
    }
}

/// The identity of a unit load device: its kind, a serial of 4 or 5 digits and its owner, as `AKE10001XX`.
#[derive(Clone, Copy, Debug)]
pub struct UldId {
    letters: Letters<10>,
}

impl Model for UldId {
    ghost use Rattle.std.specs.Prelude.{ℕ, List};
    ghost use Rattle.hold_parts.specs.Spellings.{IsUldId};

    ghost Value = { List ℕ };

    ghost view = { λ n. n.letters };

    ghost inverse = { λ letters. record { letters = letters } };

    ghost invariant = { λ n. IsUldId n.letters };
}

impl UldId {
    /// The identity that the text spells, and None exactly where it spells none.
    pub fn read(text: &[u8]) -> Option<UldId>
        ensures some { IfSome result (λ id. (id ≡ text.now) × IsUldId text.now) }
        ensures none { IfNone result (IsUldId text.now → ⊥) }
    {
        if !is_uld_id(text) {
            return None;
        }
        let letters = Letters::read(text)?;
        Some(UldId { letters })
    }

    /// The kind: the first three letters.
    pub fn kind(&self) -> &[u8]
        ensures { result.now ≡ take 3 self.now }
    {
        &self.letters.as_slice()[..3]
    }

    /// The letters of the identity.
    pub fn bytes(&self) -> &[u8]
        ensures value { result.now ≡ self.now }
        ensures spelled { IsUldId self.now }
    {
        self.letters.as_slice()
    }
}
