//! Bodies that replace a part of a flight's figures by numbers.

ghost use Rattle.std.specs.Prelude.{◌≡◌, None, Some, IfOk, IfSome};
ghost use Rattle.serde_json.specs.View.{view};
ghost use Rattle.flight_row.specs.Spelled.{AreSpelledLimits, IsSpelledDry, IsSpelledFuel};
ghost use Rattle.desk_bodies.specs.Bodies.{dry_told, fuel_told, limits_told, told_in};

use crate::fault::BodyFault;
use crate::json::read_json;
use crate::object::Object;
use serde_json::Value;
use std::alloc::Global;
use trim::{Dry, Fuel, Regulated};

/// The dry aircraft and its crew.
pub fn read_dry(alloc: Global, body: &[u8]) -> Result<Dry, BodyFault>
    ensures read { IfOk result (λ dry. told_in dry_told body.now ≡ Some dry) }
    ensures refused { result ≡ Err BodyFault.Form → told_in dry_told body.now ≡ None }
    ensures within { IfOk result IsSpelledDry }
{
    let value = read_json(alloc, body)?;
    dry_told(&value).ok_or(BodyFault::Form)
}

fn dry_told(value: &Value) -> Option<Dry>
    ensures value { result ≡ dry_told (view value.now) }
    ensures within { IfSome result IsSpelledDry }
{
    let body = Object::of(value, 4)?;
    let mass = body.mass("mass", 1)?;
    let index = body.index("index")?;
    let cockpit = body.number("cockpit", 0, 99)?;
    let attendants = body.number("cabin", 0, 99)?;
    Some(Dry {
        mass,
        index,
        cockpit: cockpit as u8,
        attendants: attendants as u8,
    })
}

/// The fuel.
pub fn read_fuel(alloc: Global, body: &[u8]) -> Result<Fuel, BodyFault>
    ensures read { IfOk result (λ fuel. told_in fuel_told body.now ≡ Some fuel) }
    ensures refused { result ≡ Err BodyFault.Form → told_in fuel_told body.now ≡ None }
    ensures within { IfOk result IsSpelledFuel }
{
    let value = read_json(alloc, body)?;
    fuel_told(&value).ok_or(BodyFault::Form)
}

fn fuel_told(value: &Value) -> Option<Fuel>
    ensures value { result ≡ fuel_told (view value.now) }
    ensures within { IfSome result IsSpelledFuel }
{
    let body = Object::of(value, 3)?;
    let taxi = body.mass("taxi", 0)?;
    let take_off = body.mass("takeoff", 0)?;
    let trip = body.mass("trip", 0)?;
    if trip.0 > take_off.0 {
        return None;
    }
    Some(Fuel {
        taxi,
        take_off,
        trip,
    })
}

/// The regulated masses.
pub fn read_limits(alloc: Global, body: &[u8]) -> Result<Regulated, BodyFault>
    ensures read { IfOk result (λ limits. told_in limits_told body.now ≡ Some limits) }
    ensures refused { result ≡ Err BodyFault.Form → told_in limits_told body.now ≡ None }
    ensures within { IfOk result AreSpelledLimits }
{
    let value = read_json(alloc, body)?;
    limits_told(&value).ok_or(BodyFault::Form)
}

fn limits_told(value: &Value) -> Option<Regulated>
    ensures value { result ≡ limits_told (view value.now) }
    ensures within { IfSome result AreSpelledLimits }
{
    let body = Object::of(value, 2)?;
    let take_off = body.mass("takeoff", 0)?;
    let landing = body.mass("landing", 0)?;
    Some(Regulated { take_off, landing })
}
