//! The tests of the small spellings.

ghost use Rattle.std.specs.Prelude.{◌≡◌};
ghost use Rattle.flight_state.specs.Spellings.{without_suffix, is_flight_number, is_flight_name, is_day, is_station, is_flight_key};

use base_words::{are_capitals, are_capitals_or_digits, are_digits, is_capital};

/// The number of a flight without a letter behind it.
fn without_suffix(text: &[u8]) -> &[u8]
    ensures { result.now ≡ without_suffix text.now }
{
    match text {
        [number @ .., letter] if is_capital(*letter) => number,
        _ => text,
    }
}

fn is_flight_number(text: &[u8]) -> bool
    ensures { result ≡ is_flight_number text.now }
{
    let number = without_suffix(text);
    1 <= number.len() && number.len() <= 4 && are_digits(number)
}

/// Whether the text spells a flight: an airline's two capitals or digits, 1 to 4 digits, and at most one capital.
pub fn is_flight_name(text: &[u8]) -> bool
    ensures { result ≡ is_flight_name text.now }
{
    if text.len() < 2 {
        return false;
    }
    let (airline, number) = text.split_at(2);
    are_capitals_or_digits(airline) && is_flight_number(number)
}

/// Whether the text spells a day of a month: two digits, 01 to 31.
pub fn is_day(text: &[u8]) -> bool
    ensures { result ≡ is_day text.now }
{
    match text {
        [tens, ones] if tens.is_ascii_digit() && ones.is_ascii_digit() => {
            let day = 10 * (*tens - b'0') + (*ones - b'0');
            1 <= day && day <= 31
        }
        _ => false,
    }
}

/// Whether the text spells a station: three capitals.
pub fn is_station(text: &[u8]) -> bool
    ensures { result ≡ is_station text.now }
{
    text.len() == 3 && are_capitals(text)
}

/// Whether the text spells the key of a flight: its name, a hyphen, and its day.
pub fn is_flight_key(text: &[u8]) -> bool
    ensures { result ≡ is_flight_key text.now }
{
    if text.len() < 3 {
        return false;
    }
    let (flight, rest) = text.split_at(text.len() - 3);
    let (hyphen, day) = rest.split_at(1);
    is_flight_name(flight) && (hyphen == b"-".as_slice() && is_day(day))
}
