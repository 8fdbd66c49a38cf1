//! The small texts of an aircraft file.

ghost use Rattle.std.specs.Prelude.{◌≡◌};
ghost use Rattle.aircraft_file.specs.Spellings.{is_registration, is_version, spelled};

use crate::spelling::{is_registration, is_version};
use base_words::Letters;
use std::marker::Model;

/// An aircraft's registration, written without a hyphen: 2 to 10 of A to Z and 0 to 9.
#[derive(Clone, Copy, Debug)]
pub struct Registration {
    letters: Letters<10>,
}

impl Model for Registration {
    ghost use Rattle.std.specs.Prelude.{◌≡◌, ℕ, List, true};
    ghost use Rattle.aircraft_file.specs.Spellings.{is_registration};

    ghost Value = { List ℕ };

    ghost view = { λ r. r.letters };

    ghost inverse = { λ letters. record { letters = letters } };

    ghost invariant = { λ r. is_registration r.letters ≡ true };
}

impl Registration {
    /// The registration that the text spells. None exactly where it spells none.
    pub fn read(text: &[u8]) -> Option<Registration>
        ensures { result ≡ spelled is_registration text.now }
    {
        if !is_registration(text) {
            return None;
        }
        let letters = Letters::read(text)?;
        Some(Registration { letters })
    }

    /// The letters of the registration.
    pub fn bytes(&self) -> &[u8]
        ensures { result.now ≡ self.now }
    {
        self.letters.as_slice()
    }
}

/// The version of an aircraft's cabin and hold, as its messages name it: 1 to 12 of A to Z and 0 to 9.
#[derive(Clone, Copy, Debug)]
pub struct Version {
    letters: Letters<12>,
}

impl Model for Version {
    ghost use Rattle.std.specs.Prelude.{◌≡◌, ℕ, List, true};
    ghost use Rattle.aircraft_file.specs.Spellings.{is_version};

    ghost Value = { List ℕ };

    ghost view = { λ v. v.letters };

    ghost inverse = { λ letters. record { letters = letters } };

    ghost invariant = { λ v. is_version v.letters ≡ true };
}

impl Version {
    /// The version that the text spells. None exactly where it spells none.
    pub fn read(text: &[u8]) -> Option<Version>
        ensures { result ≡ spelled is_version text.now }
    {
        if !is_version(text) {
            return None;
        }
        let letters = Letters::read(text)?;
        Some(Version { letters })
    }

    /// The letters of the version.
    pub fn bytes(&self) -> &[u8]
        ensures { result.now ≡ self.now }
    {
        self.letters.as_slice()
    }
}
