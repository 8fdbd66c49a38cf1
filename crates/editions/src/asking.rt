//! What is written down of a request, beside the flight that it is about.

ghost use Rattle.std.specs.Prelude.{◌≡◌, ◌<◌, ◌↔◌, length, List, All, Ok, IsTrue, IfSome};
ghost use Rattle.aircraft_file.specs.Craft.{Craft};
ghost use Rattle.flight_history.specs.History.{flight_at};
ghost use Rattle.editions.specs.Acts.{IsActOf, key_asked};
ghost use Rattle.editions.specs.Places.{states, IsPlaceOf, IsPlanAt};
ghost use Rattle.editions.specs.Sound.{IsKeptFlight};

use crate::acts::act_of;
use crate::flights::{Flight, Flights};
use flight_history::{Act, Request};
use hold_limits::Task;

/// Whether a plan of this task was made for the task of the flight. No memory is taken.
fn is_for(flight: &Flight, planned: &Task) -> bool
    ensures { IsTrue result ↔ (flight.now.task ≡ Ok planned.now) }
{
    match &flight.task {
        Ok(task) => task.same(planned),
        Err(_) => false,
    }
}

/// Whether the request installs a plan that was made for the task of the flight at this place. No memory is taken.
fn is_same(flights: &Flights, place: Option<usize>, request: &Request) -> bool
    requires { IfSome place (λ i. i < length flights.now.flights) }
    ensures { IsTrue result ↔ IsPlanAt flights.now.flights place request.now }
{
    let Some(i) = place else {
        return false;
    };
    match request {
        Request::Install { plan, .. } => is_for(flights.at(i), plan.task()),
        Request::InstallBest { plan, .. } => is_for(flights.at(i), plan.task()),
        _ => false,
    }
}

/// What is written down of a request about the flight at this place, or where none of its key is there.
pub fn act_at(flights: &Flights, place: Option<usize>, request: Request) -> Act
    requires { IsPlaceOf (states flights.now.flights) (key_asked request) place }
    ensures { (fleet : List Craft) → All (IsKeptFlight fleet) flights.now.flights
        → IsActOf fleet (flight_at (states flights.now.flights) (key_asked request)) request result }
{
    let same = is_same(flights, place, &request);
    act_of(request, same)
}
