//! The tests of the small spellings.

ghost use Rattle.std.specs.Prelude.{◌≡◌};
ghost use Rattle.aircraft_file.specs.Spellings.{is_registration, is_version};

use base_words::is_word;

/// Whether the text spells a registration: 2 to 10 of A to Z and 0 to 9.
pub fn is_registration(text: &[u8]) -> bool
    ensures { result ≡ is_registration text.now }
{
    is_word(2, 10, text)
}

/// Whether the text spells a version: 1 to 12 of A to Z and 0 to 9.
pub fn is_version(text: &[u8]) -> bool
    ensures { result ≡ is_version text.now }
{
    is_word(1, 12, text)
}
