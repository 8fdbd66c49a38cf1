// The standing of a flight from acts that were all accepted.
ghost use Rattle.std.specs.Prelude.{◌≡◌, [], IfOk};

use base_words::NoMemory;
use flight_history::{Act, Entry, FigurePart, Outcome, standing_after};
use flight_state::{FlightState, Lmc, Lmcs, Stage};
use hold_limits::Path;
use mass_units::{Kg, Ticks};
use payload::Cabin;
use std::alloc::{AllocError, Global};
use std::test::Fail;
use trim::{Dry, Figures, Fuel, Items, LooseList, Regulated};
use worked_day::{key, leg};

fn figures(alloc: Global) -> Figures {
    Figures {
        dry: Dry {
            mass: Kg(42_000),
            index: Ticks(5_000_000),
            cockpit: 2,
            attendants: 4,
        },
        fuel: Fuel {
            taxi: Kg(0),
            take_off: Kg(0),
            trip: Kg(0),
        },
        regulated: Regulated {
            take_off: Kg(73_500),
            landing: Kg(66_000),
        },
        cabin: Cabin::from(Vec::new(alloc)),
        containers: Items::from(Vec::new(alloc)),
        loose: LooseList::from(Vec::new(alloc)),
    }
}

/// A line of the history: an act about the flight that was accepted.
fn push(entries: &mut Vec<Entry>, act: Act) -> Result<(), NoMemory> {
    let entry = Entry {
        desk: 1,
        key: key()?,
        act,
        outcome: Outcome::Done,
    };
    entries.push(entry)?;
    Ok(())
}

fn fuel() -> FigurePart {
    FigurePart::Fuel(Fuel {
        taxi: Kg(200),
        take_off: Kg(9_000),
        trip: Kg(6_000),
    })
}

/// Three adults more in the second zone.
fn three_adults() -> Lmc {
    Lmc::Cabin {
        zone: 2,
        adults: 3,
        children: 0,
        infants: 0,
    }
}

/// The flight gets its fuel and a plan, and is released, changed late, and released again.
fn history(alloc: Global) -> Result<Vec<Entry>, NoMemory> {
    let mut entries = Vec::new(alloc);
    push(
        &mut entries,
        Act::Set {
            edition: 4,
            part: fuel(),
        },
    )?;
    push(
        &mut entries,
        Act::Install {
            edition: 5,
            path: Path::new(),
            same: true,
        },
    )?;
    push(&mut entries, Act::Release { edition: 5 })?;
    push(
        &mut entries,
        Act::Late {
            edition: 5,
            lmc: three_adults(),
        },
    )?;
    push(&mut entries, Act::Release { edition: 6 })?;
    Ok(entries)
}

/// A flight at edition 4 that was released twice.
fn begun(alloc: Global) -> Result<FlightState, NoMemory>
    ensures { IfOk result (λ s. s.lmcs ≡ []) }
{
    Ok(FlightState {
        leg: leg()?,
        edition: 4,
        stage: Stage::Working,
        base: figures(alloc),
        plan: None,
        lmcs: Lmcs::new(alloc),
        releases: 2,
    })
}

/// The standing of a flight, in a line.
fn line_of(alloc: Global, s: &FlightState) -> Result<String, AllocError> {
    format!(in alloc;
        "edition {} {:?} plan {} releases {} fuel {} zones {} changes {}",
        s.edition,
        s.stage,
        s.plan.is_some(),
        s.releases,
        s.base.fuel.take_off.0,
        s.base.cabin.as_slice().len(),
        s.lmcs.as_slice().len()
    )
}

/// The standing of the flight after these entries.
fn standing(alloc: Global, entries: &[Entry]) -> Result<String, Fail> {
    let opened = begun(alloc)?;
    match &standing_after(alloc, &opened, entries)? {
        Some(standing) => Ok(line_of(alloc, standing)?),
        None => Err(Fail::new("the numbers are within their types")),
    }
}

#[test]
fn a_flight_is_as_its_acts_leave_it(rt: HostRuntime) -> Result<(), Fail> {
    let line = standing(rt.alloc(), &history(rt.alloc())?)?;
    assert_eq!(rt;
        line.as_str(),
        "edition 6 Released plan true releases 3 fuel 9000 zones 0 changes 1"
    );
    Ok(())
}
