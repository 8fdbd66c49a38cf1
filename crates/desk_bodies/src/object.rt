//! Objects of JSON and their members.

ghost use Rattle.std.specs.Prelude.{◌≡◌, ◌≤◌, true, unsigned_abs, option_map, IfSome};
ghost use Rattle.mass_units.specs.Spelling.{IsIndex};
ghost use Rattle.serde_json.specs.Find.{as_str, get_member};
ghost use Rattle.serde_json.specs.View.{view};
ghost use Rattle.hold_parts.specs.Spellings.{IsName};
ghost use Rattle.aircraft_file.specs.Spellings.{is_name};
ghost use Rattle.flight_state.specs.Spellings.{is_day};
ghost use Rattle.desk_bodies.specs.Values.{at, day, index, mass, members_in, object_of, signed, text, whole};

use crate::values::{
    read_day, read_index, read_mass, read_name, read_number, read_signed, read_text,
};
use flight_state::Day;
use hold_limits::Name;
use mass_units::{Kg, Ticks};
use serde_json::{Map, Value};

/// The members of an object.
#[derive(Drop)]
pub struct Object<'a> {
    members: &'a Map<String, Value>,
}

impl<'a> Object<'a> {
    /// The object that the value is, where it has exactly this many members.
    #[tactic(auto, using(crate::proofs::ObjectLemmas::members_len_view))]
    pub fn of(value: &'a Value, count: usize) -> Option<Object<'a>>
        ensures { option_map members_in result ≡ object_of count (view value.now) }
    {
        let members = value.as_object()?;
        if members.len() == count {
            Some(Object { members })
        } else {
            None
        }
    }

    /// The value at this key.
    #[tactic(auto, using(crate::proofs::ObjectLemmas::object_get))]
    pub fn value(&self, name: &str) -> Option<&'a Value>
        ensures { option_map (λ v. view v.now) result ≡ get_member name.now (members_in self.now) }
    {
        self.members.get(name)
    }

    /// The whole number from `least` to `most` at this key.
    pub fn number(&self, name: &str, least: u32, most: u32) -> Option<u32>
        ensures value { result ≡ at name.now (whole least most) (members_in self.now) }
        ensures within { IfSome result (λ n. (least ≤ n) × (n ≤ most)) }
    {
        read_number(self.value(name)?, least, most)
    }

    /// The whole number at this key, of at most this size to either side of zero.
    pub fn signed(&self, name: &str, most: u32) -> Option<i32>
        requires { most ≤ 999999999 }
        ensures value { result ≡ at name.now (signed most) (members_in self.now) }
        ensures within { IfSome result (λ n. unsigned_abs n ≤ most) }
    {
        read_signed(self.value(name)?, most)
    }

    /// The mass at this key, from `least` to 1,000,000 kg.
    pub fn mass(&self, name: &str, least: u32) -> Option<Kg>
        ensures value { result ≡ at name.now (mass least) (members_in self.now) }
        ensures within { IfSome result (λ mass. (least ≤ mass.0) × (mass.0 ≤ 1000000)) }
    {
        read_mass(self.value(name)?, least)
    }

    /// The day of a month whose number is at this key.
    pub fn day(&self, name: &str) -> Option<Day>
        ensures value { result ≡ at name.now day (members_in self.now) }
        ensures spelled { IfSome result (λ text. is_day text ≡ true) }
    {
        read_day(self.value(name)?)
    }

    /// The index whose text is at this key.
    pub fn index(&self, name: &str) -> Option<Ticks>
        ensures value { result ≡ at name.now index (members_in self.now) }
        ensures within { IfSome result (λ at. IsIndex at.0) }
    {
        read_index(self.value(name)?)
    }

    /// The name of a position at this key.
    pub fn name(&self, name: &str) -> Option<Name>
        ensures value { result ≡ at name.now (text is_name) (members_in self.now) }
        ensures spelled { IfSome result IsName }
    {
        read_name(self.value(name)?)
    }

    /// The text at this key.
    pub fn text(&self, name: &str) -> Option<&'a [u8]>
        ensures { option_map (λ t. t.now) result ≡ at name.now as_str (members_in self.now) }
    {
        read_text(self.value(name)?)
    }
}
