//! What a value of JSON says where it is in one of the forms.

ghost use Rattle.std.specs.Prelude.{◌≡◌, ◌≤◌, true, unsigned_abs, option_map, IfSome};
ghost use Rattle.mass_units.specs.Spelling.{IsIndex};
ghost use Rattle.serde_json.specs.Find.{as_str};
ghost use Rattle.serde_json.specs.View.{view};
ghost use Rattle.hold_parts.specs.Spellings.{IsName};
ghost use Rattle.aircraft_file.specs.Spellings.{is_name};
ghost use Rattle.flight_state.specs.Spellings.{is_day};
ghost use Rattle.desk_bodies.specs.Values.{day, index, mass, signed, text, triple, whole};

use flight_state::Day;
use hold_limits::Name;
use mass_units::{Kg, Ticks, read_ticks5};
use serde_json::Value;

/// A whole number from `least` to `most`.
pub fn read_number(value: &Value, least: u32, most: u32) -> Option<u32>
    ensures value { result ≡ whole least most (view value.now) }
    ensures within { IfSome result (λ n. (least ≤ n) × (n ≤ most)) }
{
    let n = value.as_i64()?;
    if i64::from(least) <= n && n <= i64::from(most) {
        Some(n as u32)
    } else {
        None
    }
}

/// A whole number of at most this size, to either side of zero.
pub fn read_signed(value: &Value, most: u32) -> Option<i32>
    requires { most ≤ 999999999 }
    ensures value { result ≡ signed most (view value.now) }
    ensures within { IfSome result (λ n. unsigned_abs n ≤ most) }
{
    let n = value.as_i64()?;
    if n.unsigned_abs() <= u64::from(most) {
        Some(n as i32)
    } else {
        None
    }
}

/// A mass from `least` to 1,000,000 kg.
pub fn read_mass(value: &Value, least: u32) -> Option<Kg>
    ensures value { result ≡ mass least (view value.now) }
    ensures within { IfSome result (λ mass. (least ≤ mass.0) × (mass.0 ≤ 1000000)) }
{
    read_number(value, least, 1_000_000).map(Kg)
}

/// The day of a month whose number, 1 to 31, the value is.
#[tactic(auto, unfolding(crate::specs::Values::day))]
pub fn read_day(value: &Value) -> Option<Day>
    ensures value { result ≡ day (view value.now) }
    ensures spelled { IfSome result (λ text. is_day text ≡ true) }
{
    let day = read_number(value, 1, 31)? as u8;
    Day::read(&[b'0' + day / 10, b'0' + day % 10])
}

/// The bytes of a text.
pub fn read_text(value: &Value) -> Option<&[u8]>
    ensures { option_map (λ t. t.now) result ≡ as_str (view value.now) }
{
    Some(value.as_str()?.as_bytes())
}

/// The index that a text spells.
pub fn read_index(value: &Value) -> Option<Ticks>
    ensures value { result ≡ index (view value.now) }
    ensures within { IfSome result (λ at. IsIndex at.0) }
{
    read_ticks5(read_text(value)?).ok()
}

/// The name of a position.
pub fn read_name(value: &Value) -> Option<Name>
    ensures value { result ≡ text is_name (view value.now) }
    ensures spelled { IfSome result IsName }
{
    Name::read(read_text(value)?)
}

/// The three values of an array of exactly three.
#[tactic(auto, using(crate::proofs::ItemLemmas::counts))]
pub fn read_triple(value: &Value) -> Option<(&Value, &Value, &Value)>
    ensures { option_map (λ t. (view t.0.now, view t.1.now, view t.2.now)) result ≡ triple (view value.now) }
{
    match value.as_array()?.as_slice() {
        [first, second, third] => Some((first, second, third)),
        _ => None,
    }
}
