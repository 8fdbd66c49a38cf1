//! What a request asks.

ghost use Rattle.std.specs.Prelude.{◌≡◌, ◌↔◌, ◌⊎◌, Err, IsTrue, IfOk, IfSome, IfNone, ℕ, true, false};
ghost use Rattle.flight_state.specs.Spellings.{is_flight_key};
ghost use Rattle.desk_routes.specs.Targets.{key_in, method_of};
ghost use Rattle.desk_answers.specs.declared.errors.PlainError.TheVariants.{Memory};
ghost use Rattle.desk_requests.specs.Asked.{Asks, AsksOf, HasEdition, asked_of, is_keyed, names_edition};
ghost use Rattle.desk_requests.specs.Within.{IsLawful, IsWithin};

use crate::wanted::{Wanted, read_wanted};
use desk_answers::PlainError;
use desk_bodies::BodyFault;
use desk_routes::{DeskRouter, Route, edition_in, key_in, read_edition};
use flight_history::Request;
use flight_state::FlightKey;
use std::alloc::Global;

/// What is asked of the office.
#[derive(Debug, Drop)]
pub enum Asked {
    /// One entry.
    Entry(Request),
    /// A plan of the hold: its task is taken, then planned with this budget, and then the plan is installed.
    Plan {
        key: FlightKey,
        edition: u32,
        budget: u32,
    },
    /// A plan by trees: its task is taken, then planned with these looks, and then the plan is installed.
    Best {
        key: FlightKey,
        edition: u32,
        looks: u32,
    },
}

/// Whether the path of the route names an edition.
fn names_edition(route: Route) -> bool
    ensures { result ≡ names_edition route }
{
    !matches!(
        route,
        Route::Flights | Route::Flight | Route::Sheet | Route::Ldm | Route::Cpm
    )
}

/// The edition that the target names; 0 where its path names none.
fn edition_at(route: Route, target: &[u8]) -> Option<u32>
    ensures some { IfSome result (HasEdition route target.now) }
    ensures none { IfNone result ((edition : ℕ) → HasEdition route target.now edition → ⊥) }
{
    if !names_edition(route) {
        return Some(0);
    }
    read_edition(edition_in(target))
}

/// The key that the target spells.
fn key_named(target: &[u8]) -> Option<FlightKey>
    ensures named { IfSome result (λ key. key ≡ key_in target.now) }
    ensures some { IfSome result (λ _. is_flight_key (key_in target.now) ≡ true) }
    ensures none { IfNone result (is_flight_key (key_in target.now) ≡ false) }
{
    FlightKey::read(key_in(target))
}

/// What is asked of the flight that the target names, at this edition. None where a flight is needed, and the target spells
/// no key.
fn asked_of(target: &[u8], edition: u32, wanted: Wanted) -> Option<Asked>
    ensures some { IfSome result (λ it. it ≡ asked_of (key_in target.now) edition wanted) }
    ensures keyed { IfSome result (λ _. is_keyed target.now wanted ≡ true) }
    ensures none { IfNone result (is_keyed target.now wanted ≡ false) }
    ensures lawful { IsWithin wanted → IfSome result IsLawful }
{
    let key = key_named(target);
    match wanted {
        Wanted::Open(leg) => Some(Asked::Entry(Request::NewFlight { leg })),
        Wanted::Show(what) => Some(Asked::Entry(Request::Show { key: key?, what })),
        Wanted::Set(part) => Some(Asked::Entry(Request::Set {
            key: key?,
            edition,
            part,
        })),
        Wanted::Plan(budget) => Some(Asked::Plan {
            key: key?,
            edition,
            budget,
        }),
        Wanted::Best(looks) => Some(Asked::Best {
            key: key?,
            edition,
            looks,
        }),
        Wanted::Take => Some(Asked::Entry(Request::Take { key: key?, edition })),
        Wanted::Release => Some(Asked::Entry(Request::Release { key: key?, edition })),
        Wanted::Late(lmc) => Some(Asked::Entry(Request::Late {
            key: key?,
            edition,
            lmc,
        })),
        Wanted::Reopen => Some(Asked::Entry(Request::Reopen { key: key?, edition })),
        Wanted::Depart => Some(Asked::Entry(Request::Depart { key: key?, edition })),
    }
}

/// Whether the method is the one that the route takes.
fn has_method(route: Route, method: &[u8]) -> bool
    ensures { IsTrue result ↔ (method.now ≡ method_of route) }
{
    method == route.method().as_str().as_bytes()
}

/// What a request of this route asks.
fn asked_by(
    alloc: Global,
    route: Route,
    method: &[u8],
    target: &[u8],
    body: &[u8],
) -> Result<Asked, PlainError>
    ensures asks { (result ≡ Err Memory) ⊎ AsksOf route method.now target.now body.now result }
    ensures lawful { IfOk result IsLawful }
{
    if !has_method(route, method) {
        return Err(PlainError::Method);
    }
    let Some(edition) = edition_at(route, target) else {
        return Err(PlainError::Edition);
    };
    let wanted = match read_wanted(alloc, route, body) {
        Ok(wanted) => wanted,
        Err(BodyFault::Form) => return Err(PlainError::Body),
        Err(BodyFault::NoMemory) => return Err(PlainError::Memory),
    };
    let Some(asked) = asked_of(target, edition, wanted) else {
        return Err(PlainError::NoFlight);
    };
    Ok(asked)
}

/// What a request asks, or the first reason for which it is refused before its turn: its path, its method, its edition, its
/// body, its key. Out of memory comes in place of any answer.
pub fn read_request(
    alloc: Global,
    router: &DeskRouter,
    method: &[u8],
    target: &[u8],
    body: &[u8],
) -> Result<Asked, PlainError>
    ensures asks { (result ≡ Err Memory) ⊎ Asks method.now target.now body.now result }
    ensures lawful { IfOk result IsLawful }
{
    let Some(route) = router.route(target) else {
        return Err(PlainError::NoRoute);
    };
    asked_by(alloc, route, method, target, body)
}
