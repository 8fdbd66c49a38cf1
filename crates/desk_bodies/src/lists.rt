//! Bodies that replace the cabin or the loose loads of a flight.

ghost use Rattle.std.specs.Prelude.{◌≡◌, ◌≤◌, None, Some, length, option_map, All, IfOk, IfSome};
ghost use Rattle.serde_json.specs.View.{items_view, view};
ghost use Rattle.trim.specs.Limits.{HasFewPassengers};
ghost use Rattle.flight_row.specs.Spelled.{IsSpelledLoad};
ghost use Rattle.desk_bodies.specs.Values.{each};
ghost use Rattle.desk_bodies.specs.Bodies.{cabin_told, load_told, loose_told, only, told_in, up_to, zone_told};

use crate::fault::BodyFault;
use crate::json::read_json;
use crate::object::Object;
use crate::values::{read_mass, read_name, read_number, read_triple};
use base_words::NoMemory;
use payload::{Cabin, ZoneCount};
use serde_json::Value;
use std::alloc::Global;
use trim::{LooseFigure, LooseList};

/// The most zones and the most loose loads of a body.
const MOST_ZONES: usize = 16;

const MOST_LOADS: usize = 64;

/// A form of the values in an array.
trait Form {
    ghost use Rattle.std.specs.Prelude.{◌≡◌, Option, IfSome};
    ghost use Rattle.serde_json.specs.Data.{Data};
    ghost use Rattle.serde_json.specs.View.{view};

    /// What a value in this form says.
    type Content: Drop;

    ghost content: { Data → Option Self.Content };

    ghost limits: { Self.Content → Type 0 };

    /// What the value says. None where it is not in this form.
    fn read(value: &Value) -> Option<Self::Content>
        ensures value { result ≡ content (view value.now) }
        ensures limits { IfSome result limits };
}

/// The passengers of a zone.
struct Zone;

impl Form for Zone {
    type Content = ZoneCount;

    ghost content = { zone_told };

    ghost limits = { HasFewPassengers };

    fn read(value: &Value) -> Option<ZoneCount> {
        let (adults, children, infants) = read_triple(value)?;
        Some(ZoneCount {
            adults: read_number(adults, 0, 999)? as u16,
            children: read_number(children, 0, 999)? as u16,
            infants: read_number(infants, 0, 999)? as u16,
        })
    }
}

/// A loose load of a bulk position.
struct Load;

impl Form for Load {
    type Content = LooseFigure;

    ghost content = { load_told };

    ghost limits = { IsSpelledLoad };

    fn read(value: &Value) -> Option<LooseFigure> {
        let (position, mass, pieces) = read_triple(value)?;
        let position = read_name(position)?;
        let mass = read_mass(mass, 0)?;
        let pieces = read_number(pieces, 0, 999)?;
        Some(LooseFigure {
            position,
            mass,
            pieces: pieces as u16,
        })
    }
}

/// What the values say. None where one of them is not in the form.
fn read_each<F: Form>(alloc: Global, values: &[Value]) -> Result<Option<Vec<F::Content>>, NoMemory>
    ensures value { IfOk result (λ read. option_map (λ list. list.items) read
        ≡ each F.content (items_view values.now)) }
    ensures limits { IfOk result (λ read. IfSome read (λ list. All F.limits list.items)) }
{
    let mut contents = Vec::new(alloc);
    for value in values {
        let Some(content) = F::read(value) else {
            return Ok(None);
        };
        contents.push(content)?;
    }
    Ok(Some(contents))
}

/// What the values of an array say. None where the value is no array of at most so many values in the form.
fn read_up_to<F: Form>(
    alloc: Global,
    most: usize,
    value: &Value,
) -> Result<Option<Vec<F::Content>>, NoMemory>
    ensures value { IfOk result (λ read. option_map (λ list. list.items) read
        ≡ up_to most F.content (view value.now)) }
    ensures limits { IfOk result (λ read. IfSome read (λ list.
        (length list.items ≤ most) × All F.limits list.items)) }
{
    let Some(values) = value.as_array() else {
        return Ok(None);
    };
    let Some(list) = read_each::<F>(alloc, values)? else {
        return Ok(None);
    };
    if list.len() > most {
        return Ok(None);
    }
    Ok(Some(list))
}

/// The passengers of the zones, from nose to tail.
pub fn read_cabin(alloc: Global, body: &[u8]) -> Result<Cabin, BodyFault>
    ensures read { IfOk result (λ cabin. told_in cabin_told body.now ≡ Some cabin) }
    ensures refused { result ≡ Err BodyFault.Form → told_in cabin_told body.now ≡ None }
    ensures within { IfOk result (λ cabin. (length cabin ≤ 16) × All HasFewPassengers cabin) }
{
    let value = read_json(alloc, body)?;
    let Some(zones) = only_member(&value, "zones") else {
        return Err(BodyFault::Form);
    };
    let zones = read_up_to::<Zone>(alloc, MOST_ZONES, zones)?;
    Ok(Cabin::from(zones.ok_or(BodyFault::Form)?))
}

/// The loose loads of the bulk positions.
pub fn read_loose(alloc: Global, body: &[u8]) -> Result<LooseList, BodyFault>
    ensures read { IfOk result (λ loads. told_in loose_told body.now ≡ Some loads) }
    ensures refused { result ≡ Err BodyFault.Form → told_in loose_told body.now ≡ None }
    ensures within { IfOk result (λ loads. (length loads ≤ 64) × All IsSpelledLoad loads) }
{
    let value = read_json(alloc, body)?;
    let Some(loads) = only_member(&value, "bulk") else {
        return Err(BodyFault::Form);
    };
    let loads = read_up_to::<Load>(alloc, MOST_LOADS, loads)?;
    Ok(LooseList::from(loads.ok_or(BodyFault::Form)?))
}

/// The value at this key of an object that has no other.
fn only_member<'a>(value: &'a Value, name: &str) -> Option<&'a Value>
    ensures { option_map (λ v. view v.now) result ≡ only name.now (view value.now) }
{
    Object::of(value, 1)?.value(name)
}
