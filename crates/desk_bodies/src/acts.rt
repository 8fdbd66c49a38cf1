//! Bodies that open a flight, ask for a plan, or report a late change.

ghost use Rattle.std.specs.Prelude.{◌≡◌, ◌≤◌, None, Some, IfOk, IfSome};
ghost use Rattle.serde_json.specs.View.{view};
ghost use Rattle.flight_state.specs.Legs.{IsSpelledLeg};
ghost use Rattle.flight_row.specs.Spelled.{IsSpelledChange};
ghost use Rattle.desk_bodies.specs.Bodies.{budget_in, budget_told, bulk_change_told, change_told, leg_told, looks_in, looks_told, told_in, zone_change_told};

use crate::fault::BodyFault;
use crate::json::read_json;
use crate::object::Object;
use aircraft_file::Registration;
use flight_state::{FlightName, Leg, Lmc, Station};
use serde_json::Value;
use std::alloc::Global;

/// How many prefixes a plan may look at where its request does not say.
const USUAL_BUDGET: u32 = 2000;

/// How many looks the search by trees may take where its request does not say.
const USUAL_LOOKS: u32 = 2000;

/// The leg of a flight that is to be opened.
pub fn read_leg(alloc: Global, body: &[u8]) -> Result<Leg, BodyFault>
    ensures read { IfOk result (λ leg. told_in leg_told body.now ≡ Some leg) }
    ensures refused { result ≡ Err BodyFault.Form → told_in leg_told body.now ≡ None }
    ensures spelled { IfOk result IsSpelledLeg }
{
    let value = read_json(alloc, body)?;
    leg_told(&value).ok_or(BodyFault::Form)
}

fn leg_told(value: &Value) -> Option<Leg>
    ensures value { result ≡ leg_told (view value.now) }
    ensures spelled { IfSome result IsSpelledLeg }
{
    let body = Object::of(value, 5)?;
    let flight = FlightName::read(body.text("flight")?)?;
    let day = body.day("day")?;
    let registration = Registration::read(body.text("registration")?)?;
    let origin = Station::read(body.text("origin")?)?;
    let destination = Station::read(body.text("destination")?)?;
    Some(Leg {
        flight,
        day,
        registration,
        origin,
        destination,
    })
}

/// How many prefixes a plan may look at, 1 to 5,000; 2,000 where the body is empty.
pub fn read_budget(alloc: Global, body: &[u8]) -> Result<u32, BodyFault>
    ensures read { IfOk result (λ budget. budget_in body.now ≡ Some budget) }
    ensures refused { result ≡ Err BodyFault.Form → budget_in body.now ≡ None }
    ensures within { IfOk result (λ budget. (1 ≤ budget) × (budget ≤ 5000)) }
{
    if body.is_empty() {
        return Ok(USUAL_BUDGET);
    }
    let value = read_json(alloc, body)?;
    budget_told(&value).ok_or(BodyFault::Form)
}

fn budget_told(value: &Value) -> Option<u32>
    ensures value { result ≡ budget_told (view value.now) }
    ensures within { IfSome result (λ budget. (1 ≤ budget) × (budget ≤ 5000)) }
{
    Object::of(value, 1)?.number("budget", 1, 5000)
}

/// How many looks the search by trees may take, 1 to 1,000,000; 2,000 where the body is empty.
pub fn read_looks(alloc: Global, body: &[u8]) -> Result<u32, BodyFault>
    ensures read { IfOk result (λ looks. looks_in body.now ≡ Some looks) }
    ensures refused { result ≡ Err BodyFault.Form → looks_in body.now ≡ None }
    ensures within { IfOk result (λ looks. (1 ≤ looks) × (looks ≤ 1000000)) }
{
    if body.is_empty() {
        return Ok(USUAL_LOOKS);
    }
    let value = read_json(alloc, body)?;
    looks_told(&value).ok_or(BodyFault::Form)
}

fn looks_told(value: &Value) -> Option<u32>
    ensures value { result ≡ looks_told (view value.now) }
    ensures within { IfSome result (λ looks. (1 ≤ looks) × (looks ≤ 1000000)) }
{
    Object::of(value, 1)?.number("looks", 1, 1_000_000)
}

/// A late change, of a zone or of a bulk position.
pub fn read_change(alloc: Global, body: &[u8]) -> Result<Lmc, BodyFault>
    ensures read { IfOk result (λ change. told_in change_told body.now ≡ Some change) }
    ensures refused { result ≡ Err BodyFault.Form → told_in change_told body.now ≡ None }
    ensures within { IfOk result IsSpelledChange }
{
    let value = read_json(alloc, body)?;
    change_told(&value).ok_or(BodyFault::Form)
}

fn change_told(value: &Value) -> Option<Lmc>
    ensures value { result ≡ change_told (view value.now) }
    ensures within { IfSome result IsSpelledChange }
{
    match zone_change_told(value) {
        Some(change) => Some(change),
        None => bulk_change_told(value),
    }
}

fn zone_change_told(value: &Value) -> Option<Lmc>
    ensures value { result ≡ zone_change_told (view value.now) }
    ensures within { IfSome result IsSpelledChange }
{
    let body = Object::of(value, 4)?;
    let zone = body.number("zone", 1, 16)?;
    let adults = body.signed("adults", 999)?;
    let children = body.signed("children", 999)?;
    let infants = body.signed("infants", 999)?;
    Some(Lmc::Cabin {
        zone: zone as u8,
        adults: adults as i16,
        children: children as i16,
        infants: infants as i16,
    })
}

fn bulk_change_told(value: &Value) -> Option<Lmc>
    ensures value { result ≡ bulk_change_told (view value.now) }
    ensures within { IfSome result IsSpelledChange }
{
    let body = Object::of(value, 3)?;
    let position = body.name("bulk")?;
    let mass = body.signed("mass", 1_000_000)?;
    let pieces = body.signed("pieces", 999)?;
    Some(Lmc::Loose {
        position,
        mass,
        pieces: pieces as i16,
    })
}
