//! Readers of prices as words.

ghost use Rattle.std.specs.Prelude.{◌≡◌, ◌≢◌, ◌<◌, ◌^◌, ℕ, ℤ, IfSome, IfNone};
ghost use Rattle.mass_units.specs.Spelling.{number_text, signed_text};
ghost use Rattle.priced_certificate.specs.PricedText.{IsSpelledPrice};

use certificate::read_wide_number;
use text_lines::after_prefix;

/// A price in a text lies below this, either way: it has at most 14 digits.
const PRICE_LIMIT: u64 = 100_000_000_000_000;

/// The number of at most 14 digits that the text spells.
fn read_size(text: &[u8]) -> Option<u64>
    ensures some { IfSome result (λ n. (n < 10 ^ 14) × (text.now ≡ number_text n)) }
    ensures none { IfNone result ((n : ℕ) → n < 10 ^ 14 → text.now ≢ number_text n) }
{
    match read_wide_number(text) {
        Some(n) if n < PRICE_LIMIT => Some(n),
        _ => None,
    }
}

/// The price that the word spells.
pub fn read_price(word: &[u8]) -> Option<i64>
    ensures some { IfSome result (λ price. IsSpelledPrice price × (word.now ≡ signed_text price)) }
    ensures none { IfNone result ((price : ℤ) → IsSpelledPrice price → word.now ≢ signed_text price) }
{
    match after_prefix(b"-", word) {
        Some(size) => match read_size(size)? {
            0 => None,
            n => Some(-(n as i64)),
        },
        None => Some(read_size(word)? as i64),
    }
}
