//! What a desk asks of the office.

ghost use Rattle.std.specs.Prelude.{◌≡◌, IfOk};
ghost use Rattle.flight_history.specs.Step.{replaced};

use base_words::NoMemory;
use best_plan::BestPlan;
use cert_checker::Proven;
use flight_state::{FlightKey, Leg, Lmc};
use payload::Cabin;
use std::alloc::Global;
use trim::{Dry, Figures, Fuel, Items, LooseList, Regulated};

/// A part of the figures of a flight, to be replaced as a whole.
#[derive(Debug, Drop)]
pub enum FigurePart {
    Dry(Dry),
    Fuel(Fuel),
    Limits(Regulated),
    Cabin(Cabin),
    Containers(Items),
    Loose(LooseList),
}

/// What is shown of a flight.
#[derive(Clone, Copy, Debug, PartialEq, Eq)]
pub enum What {
    /// Its row.
    State,
    /// The sheet, for the loadsheet.
    Sheet,
    /// The sheet, for the load message.
    Ldm,
    /// The sheet, for the container and pallet message.
    Cpm,
}

/// A request to the office. But for opening a flight and showing it, each names the edition that the desk knows.
#[derive(Debug, Drop)]
pub enum Request {
    /// Opens a flight.
    NewFlight {
        leg: Leg,
    },
    /// Replaces a part of the figures.
    Set {
        key: FlightKey,
        edition: u32,
        part: FigurePart,
    },
    /// Asks for the loading task.
    Take {
        key: FlightKey,
        edition: u32,
    },
    /// Installs a plan of the hold.
    Install {
        key: FlightKey,
        edition: u32,
        plan: Proven,
    },
    /// Installs a plan of the hold that is proved to be the best by other evidence, that of trees say.
    InstallBest {
        key: FlightKey,
        edition: u32,
        plan: BestPlan,
    },
    /// Releases the flight: issues its sheet.
    Release {
        key: FlightKey,
        edition: u32,
    },
    /// Reports a late change of a flight that is released.
    Late {
        key: FlightKey,
        edition: u32,
        lmc: Lmc,
    },
    /// Takes a release back.
    Reopen {
        key: FlightKey,
        edition: u32,
    },
    /// Reports that the flight has left.
    Depart {
        key: FlightKey,
        edition: u32,
    },
    /// Asks for the row or for a document.
    Show {
        key: FlightKey,
        what: What,
    },
}

/// The figures with a part replaced.
pub fn replaced(alloc: Global, figures: Figures, part: &FigurePart) -> Result<Figures, NoMemory>
    ensures { IfOk result (λ next. next ≡ replaced figures part.now) }
{
    let mut figures = figures;
    match part {
        FigurePart::Dry(dry) => figures.dry = *dry,
        FigurePart::Fuel(fuel) => figures.fuel = *fuel,
        FigurePart::Limits(limits) => figures.regulated = *limits,
        FigurePart::Cabin(cabin) => figures.cabin = cabin.clone()?,
        FigurePart::Containers(items) => figures.containers = items.clone()?,
        FigurePart::Loose(loads) => figures.loose = loads.clone()?,
    }
    Ok(figures)
}
