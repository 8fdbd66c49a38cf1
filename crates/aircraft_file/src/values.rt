//! What a value of a document says where it is in one of the forms.

ghost use Rattle.std.specs.Prelude.{◌≡◌, ◌≤◌, unsigned_abs, option_map, IfSome};
ghost use Rattle.mass_units.specs.Spelling.{IsIndex};
ghost use Rattle.toml.specs.View.{view, items_view};
ghost use Rattle.aircraft_file.specs.Forms.{first_and_more, index, listed_mass, pair, signed, text, whole};
ghost use Rattle.aircraft_file.specs.Lawful.{IsMass};
ghost use Rattle.hold_parts.specs.Spellings.{IsKind};
ghost use Rattle.aircraft_file.specs.Spellings.{is_kind, is_name, is_registration, is_version};

use crate::texts::{Registration, Version};
use hold_limits::{Name, is_kind};
use mass_units::{Kg, Ticks, read_ticks5};
use toml::Value;

/// A whole number from `least` to `most`.
pub fn read_number(value: &Value, least: u32, most: u32) -> Option<u32>
    ensures value { result ≡ whole least most (view value.now) }
    ensures within { IfSome result (λ n. (least ≤ n) × (n ≤ most)) }
{
    let n = value.as_integer()?;
    if i64::from(least) <= n && n <= i64::from(most) {
        Some(n as u32)
    } else {
        None
    }
}

/// A mass in an array, at most 1,000,000 kg.
pub fn read_mass(value: &Value) -> Option<Kg>
    ensures value { result ≡ listed_mass (view value.now) }
    ensures within { IfSome result (IsMass 0 1000000) }
{
    read_number(value, 0, 1_000_000).map(Kg)
}

/// A whole number of at most this size, to either side of zero.
pub fn read_signed(value: &Value, most: u32) -> Option<i32>
    requires { most ≤ 999999999 }
    ensures value { result ≡ signed most (view value.now) }
    ensures within { IfSome result (λ n. unsigned_abs n ≤ most) }
{
    let n = value.as_integer()?;
    if n.unsigned_abs() <= u64::from(most) {
        Some(n as i32)
    } else {
        None
    }
}

/// The index that a text spells.
pub fn read_index(value: &Value) -> Option<Ticks>
    ensures value { result ≡ index (view value.now) }
    ensures within { IfSome result (λ at. IsIndex at.0) }
{
    read_ticks5(value.as_str()?.as_bytes()).ok()
}

/// The registration that a text spells.
pub fn read_registration(value: &Value) -> Option<Registration>
    ensures { result ≡ text is_registration (view value.now) }
{
    Registration::read(value.as_str()?.as_bytes())
}

/// The version that a text spells.
pub fn read_version(value: &Value) -> Option<Version>
    ensures { result ≡ text is_version (view value.now) }
{
    Version::read(value.as_str()?.as_bytes())
}

/// The name of a position.
pub fn read_name(value: &Value) -> Option<Name>
    ensures { result ≡ text is_name (view value.now) }
{
    Name::read(value.as_str()?.as_bytes())
}

/// A kind of container.
pub fn read_kind(value: &Value) -> Option<[u8; 3]>
    ensures value { result ≡ text is_kind (view value.now) }
    ensures spelled { IfSome result IsKind }
{
    let text = value.as_str()?.as_bytes();
    if !is_kind(text) {
        return None;
    }
    text.try_into().ok()
}

/// The two values of an array of exactly two.
#[tactic(auto, using(crate::proofs::ItemLemmas::counts))]
pub fn read_pair(value: &Value) -> Option<(&Value, &Value)>
    ensures { option_map (λ p. (view p.0.now, view p.1.now)) result ≡ pair (view value.now) }
{
    match value.as_array()?.as_slice() {
        [first, second] => Some((first, second)),
        _ => None,
    }
}

/// The first value of an array, and the others, of which there is at least one.
#[tactic(auto, using(crate::proofs::ItemLemmas::counts))]
pub fn read_first_and_more(value: &Value) -> Option<(&Value, &[Value])>
    ensures { option_map (λ p. (view p.0.now, items_view p.1.now)) result
        ≡ first_and_more (view value.now) }
{
    match value.as_array()?.as_slice() {
        [] | [_] => None,
        [first, more @ ..] => Some((first, more)),
    }
}
