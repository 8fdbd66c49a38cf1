//! Kinds of words: numbers, masses, indices, and names.

ghost use Rattle.std.specs.Prelude.{◌<◌, ◌^◌};

use crate::fields::WordReader;
use crate::names::Names;
use hold_limits::{Name, UldId};
use mass_units::{Kg, Ticks, read_long_number, read_number, read_signed, read_ticks5};

/// A number between two others.
#[derive(Clone, Copy)]
pub struct NumberWord {
    pub least: u32,
    pub most: u32,
    ghost fits: { most < 2 ^ 32 },
}

/// A signed number up to a greatest absolute value.
#[derive(Clone, Copy)]
pub struct SignedWord {
    pub most: u32,
    ghost short: { most < 10 ^ 9 },
}

/// A mass of at most nine digits.
#[derive(Clone, Copy)]
pub struct MassWord;

/// An index.
#[derive(Clone, Copy)]
pub struct IndexWord;

/// The name of a position, whether there is one with it or not.
#[derive(Clone, Copy)]
pub struct NameWord;

/// The identity of a container.
#[derive(Clone, Copy)]
pub struct IdWord;

/// The name of one of the positions, of which the number is kept.
#[derive(Clone, Copy)]
pub struct PositionWord<'r, 'a>(pub &'r Names<'a>);

impl WordReader for NumberWord {
    ghost use Rattle.std.specs.Prelude.{◌≤◌};
    ghost use Rattle.std.proofs.Common.{lit<};
    ghost use Rattle.mass_units.specs.Spelling.{number_text};
    ghost use Rattle.mass_units.proofs.SpellingLemmas.{number_text-avoids};

    type Value = u32;

    ghost text = { λ _. number_text };

    ghost spelled = { λ s n. (s.least ≤ n) × (n ≤ s.most) };

    ghost keep = { λ _ n. n };

    fn read(&self, word: &[u8]) -> Option<u32> {
        let number = read_long_number(word)?;
        if number < self.least {
            return None;
        }
        if number > self.most {
            return None;
        }
        Some(number)
    }

    ghost plain = { λ _ n _. number_text-avoids 32 n (lit< tt) };
}

impl WordReader for SignedWord {
    ghost use Rattle.std.specs.Prelude.{◌≤◌, unsigned_abs};
    ghost use Rattle.std.proofs.Common.{lit<};
    ghost use Rattle.mass_units.specs.Spelling.{signed_text};
    ghost use Rattle.mass_units.proofs.SpellingLemmas.{signed_text-avoids};

    type Value = i32;

    ghost text = { λ _. signed_text };

    ghost spelled = { λ s z. unsigned_abs z ≤ s.most };

    ghost keep = { λ _ z. z };

    fn read(&self, word: &[u8]) -> Option<i32> {
        let number = read_signed(word)?;
        if number.unsigned_abs() <= self.most {
            Some(number)
        } else {
            None
        }
    }

    ghost plain = { λ _ z _. signed_text-avoids 32 z (lit< tt) };
}

impl WordReader for MassWord {
    ghost use Rattle.std.proofs.Common.{lit<};
    ghost use Rattle.mass_units.specs.Spelling.{number_text, IsNumber};
    ghost use Rattle.mass_units.proofs.SpellingLemmas.{number_text-avoids};

    type Value = Kg;

    ghost text = { λ _ mass. number_text mass.0 };

    ghost spelled = { λ _ mass. IsNumber mass.0 };

    ghost keep = { λ _ mass. mass };

    fn read(&self, word: &[u8]) -> Option<Kg> {
        Some(Kg(read_number(word)?))
    }

    ghost plain = { λ _ mass _. number_text-avoids 32 mass.0 (lit< tt) };
}

impl WordReader for IndexWord {
    ghost use Rattle.std.proofs.Common.{lit<};
    ghost use Rattle.mass_units.specs.Spelling.{index_text, IsIndex};
    ghost use Rattle.mass_units.proofs.SpellingLemmas.{index_text-avoids};

    type Value = Ticks;

    ghost text = { λ _ index. index_text index.0 };

    ghost spelled = { λ _ index. IsIndex index.0 };

    ghost keep = { λ _ index. index };

    fn read(&self, word: &[u8]) -> Option<Ticks> {
        read_ticks5(word).ok()
    }

    ghost plain = { λ _ index _. index_text-avoids 32 index.0 (lit< tt) };
}

impl WordReader for NameWord {
    ghost use Rattle.std.proofs.Common.{lit<};
    ghost use Rattle.hold_parts.specs.Spellings.{IsName};
    ghost use Rattle.text_lines.specs.SpelledWords.{name_avoids};

    type Value = Name;

    ghost text = { λ _ name. name };

    ghost spelled = { λ _. IsName };

    ghost keep = { λ _ name. name };

    fn read(&self, word: &[u8]) -> Option<Name> {
        Name::read(word)
    }

    ghost plain = { λ _ name named. name_avoids 32 name (lit< tt) named };
}

impl WordReader for IdWord {
    ghost use Rattle.std.proofs.Common.{lit<};
    ghost use Rattle.hold_parts.specs.Spellings.{IsUldId};
    ghost use Rattle.text_lines.specs.SpelledWords.{id_avoids};

    type Value = UldId;

    ghost text = { λ _ id. id };

    ghost spelled = { λ _. IsUldId };

    ghost keep = { λ _ id. id };

    fn read(&self, word: &[u8]) -> Option<UldId> {
        UldId::read(word)
    }

    ghost plain = { λ _ id right. id_avoids 32 id (lit< tt) right };
}

impl WordReader for PositionWord<'_, '_> {
    ghost use Rattle.hold_limits.specs.Layout.{name_at};
    ghost use Rattle.text_lines.specs.Names.{IsNamed, byte_of};
    ghost use Rattle.text_lines.specs.SpelledWords.{name_at-avoids};

    type Value = u8;

    ghost text = { λ s. name_at s.0.now.positions.now };

    ghost spelled = { λ s. IsNamed s.0.now.positions.now };

    ghost keep = { λ _. byte_of };

    fn read(&self, word: &[u8]) -> Option<u8> {
        self.0.number_of(word)
    }

    ghost plain = { λ s q named. name_at-avoids 32 s.0.now.positions.now q s.0.now.clear named.known };
}
