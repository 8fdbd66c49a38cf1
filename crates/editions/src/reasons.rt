//! Reasons to refuse an act that lie in the flight's stage, edition and plan.

ghost use Rattle.std.specs.Prelude.{◌≡◌};
ghost use Rattle.flight_history.specs.Verdict.{is_released, no_more_editions, no_plan, not_current, not_released, not_shown};

use flight_history::{Refusal, What};
use flight_state::{FlightState, Stage};

/// The last edition that a flight may have.
const LAST_EDITION: u32 = 1_000_000_000;

/// The flight has departed, or the edition is not its own.
pub fn not_current(flight: &FlightState, edition: u32) -> Option<Refusal>
    ensures { result ≡ not_current flight.now edition }
{
    if flight.stage == Stage::Departed {
        Some(Refusal::Gone)
    } else if edition < flight.edition {
        Some(Refusal::Stale(flight.edition))
    } else if edition > flight.edition {
        Some(Refusal::Ahead(flight.edition))
    } else {
        None
    }
}

pub fn is_released(flight: &FlightState) -> bool
    ensures { result ≡ is_released flight.now.stage }
{
    match flight.stage {
        Stage::Released => true,
        _ => false,
    }
}

pub fn not_released(flight: &FlightState) -> Option<Refusal>
    ensures { result ≡ not_released flight.now }
{
    if flight.stage == Stage::Released {
        None
    } else {
        Some(Refusal::NotReleased)
    }
}

pub fn no_plan(flight: &FlightState) -> Option<Refusal>
    ensures { result ≡ no_plan flight.now }
{
    if flight.plan.is_some() {
        None
    } else {
        Some(Refusal::NoPlanYet)
    }
}

/// There is no edition after the flight's.
pub fn no_more_editions(flight: &FlightState) -> Option<Refusal>
    ensures { result ≡ no_more_editions flight.now }
{
    if flight.edition < LAST_EDITION {
        None
    } else {
        Some(Refusal::Spent)
    }
}

/// What is asked for is a document of a flight whose sheet is not issued, or that left without a plan.
pub fn not_shown(flight: &FlightState, what: What) -> Option<Refusal>
    ensures { result ≡ not_shown flight.now what }
{
    if what == What::State {
        None
    } else if flight.stage != Stage::Released && flight.stage != Stage::Departed {
        Some(Refusal::NotReleased)
    } else {
        no_plan(flight)
    }
}
