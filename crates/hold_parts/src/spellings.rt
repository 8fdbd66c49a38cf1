//! The tests of the small spellings.

ghost use Rattle.std.specs.Prelude.{◌↔◌, IsTrue};
ghost use Rattle.hold_parts.specs.Spellings.{IsName, IsKind, IsUldId};

use base_words::{are_capitals, are_capitals_or_digits, are_digits};

/// Whether the text spells a position's name.
pub fn is_name(text: &[u8]) -> bool
    ensures { IsTrue result ↔ IsName text.now }
{
    !text.is_empty() && text.len() <= 3 && are_capitals_or_digits(text)
}

/// Whether the text spells a kind of container.
pub fn is_kind(text: &[u8]) -> bool
    ensures { IsTrue result ↔ IsKind text.now }
{
    text.len() == 3 && are_capitals(text)
}

/// Whether the text spells the identity of a unit load device.
pub fn is_uld_id(text: &[u8]) -> bool
    ensures { IsTrue result ↔ IsUldId text.now }
{
    if text.len() < 9 || text.len() > 10 {
        return false;
    }
    let owner = text.len() - 2;
    let kind_is_right = are_capitals(&text[..3]);
    let serial_is_right = are_digits(&text[3..owner]);
    let owner_is_right = are_capitals_or_digits(&text[owner..]);
    kind_is_right && serial_is_right && owner_is_right
}
