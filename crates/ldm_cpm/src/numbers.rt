//! Numbers among the parts of a line.

ghost use Rattle.std.specs.Prelude.{◌≡◌, ℕ, Some, IfSome};
ghost use Rattle.mass_units.specs.Spelling.{number_text, IsNumber};

use mass_units::read_number;
use telex::Part;

/// The number that the part spells after the separator. None exactly where it spells none.
pub fn number_after(mark: u8, part: &Part<'_>) -> Option<u32>
    ensures some { IfSome result (λ n. (part.now.before ≡ mark) × IsNumber n
        × (part.now.text.now ≡ number_text n)) }
    ensures read_back { (n : ℕ) → IsNumber n → part.now.before ≡ mark → part.now.text.now ≡ number_text n
        → result ≡ Some n }
{
    if part.before != mark {
        return None;
    }
    read_number(part.text)
}
