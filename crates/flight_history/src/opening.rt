//! A flight as it is opened.

ghost use Rattle.std.specs.Prelude.{◌≡◌};
ghost use Rattle.aircraft_file.specs.Lawful.{IsLawfulCraft};
ghost use Rattle.flight_history.specs.Fleet.{first_figures, new_flight};

use aircraft_file::Aircraft;
use flight_state::{FlightState, Leg, Lmcs, Stage};
use mass_units::Kg;
use payload::Cabin;
use std::alloc::Global;
use trim::{Dry, Figures, Fuel, Items, LooseList, Regulated};

/// The figures of a flight that nothing is told of.
fn first_figures(alloc: Global, a: &Aircraft) -> Figures
    ensures value { result ≡ first_figures a.now }
    ensures lawful { IsLawfulCraft a.now }
{
    Figures {
        dry: Dry {
            mass: a.dry_mass(),
            index: a.dry_index(),
            cockpit: 0,
            attendants: 0,
        },
        fuel: Fuel {
            taxi: Kg(0),
            take_off: Kg(0),
            trip: Kg(0),
        },
        regulated: Regulated {
            take_off: a.certified().take_off,
            landing: a.certified().landing,
        },
        cabin: Cabin::from(Vec::new(alloc)),
        containers: Items::from(Vec::new(alloc)),
        loose: LooseList::from(Vec::new(alloc)),
    }
}

/// A flight as it is opened. No memory is taken.
pub fn new_flight(alloc: Global, a: &Aircraft, leg: Leg) -> FlightState
    ensures value { result ≡ new_flight a.now leg }
    ensures lawful { IsLawfulCraft a.now }
{
    FlightState {
        leg,
        edition: 1,
        stage: Stage::Working,
        base: first_figures(alloc, a),
        plan: None,
        lmcs: Lmcs::new(alloc),
        releases: 0,
    }
}
