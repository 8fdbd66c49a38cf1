//! Numbers of up to 64 bits, as certificates with prices have them.

ghost use Rattle.std.specs.Prelude.{◌≡◌, ◌≢◌, ◌<◌, ◌^◌, ℕ, IfSome, IfNone};
ghost use Rattle.std.specs.Str.Parse.{AllDigits, digits_value};
ghost use Rattle.mass_units.specs.Spelling.{number_text};

use mass_units::has_plain_front;

/// The number that the digits write. None where a byte is no digit, or the number has more than 64 bits.
fn read_digits(text: &[u8]) -> Option<u64>
    ensures some { IfSome result (λ value. AllDigits 10 text.now × (value ≡ digits_value 10 text.now)) }
    ensures none { IfNone result ((n : ℕ) → n < 2 ^ 64 → text.now ≢ number_text n) }
{
    let mut value = 0u64;
    for byte in text {
        if !byte.is_ascii_digit() {
            return None;
        }
        value = value.checked_mul(10)?.checked_add(u64::from(*byte - b'0'))?;
    }
    Some(value)
}

/// Reads a number of at most 64 bits, which has no leading zeros. None where the text spells no such number.
pub fn read_wide_number(text: &[u8]) -> Option<u64>
    ensures some { IfSome result (λ n. text.now ≡ number_text n) }
    ensures none { IfNone result ((n : ℕ) → n < 2 ^ 64 → text.now ≢ number_text n) }
{
    if !has_plain_front(text) {
        return None;
    }
    read_digits(text)
}
