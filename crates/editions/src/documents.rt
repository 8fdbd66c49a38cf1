//! What is made of a flight's figures: its task, its row, its sheet, and the rules that it breaks.

ghost use Rattle.std.specs.Prelude.{◌≡◌, length, List, Some, IfOk, IsSome};
ghost use Rattle.aircraft_file.specs.Craft.{Craft};
ghost use Rattle.flight_row.specs.declared.row.Version.TheVariants.{Two};
ghost use Rattle.flight_row.specs.Loading.{HasRow, KeepsPlan, Reads, aircraft_of, row_of};
ghost use Rattle.flight_row.specs.RowText.{row_text};
ghost use Rattle.flight_state.specs.Effective.{effective};
ghost use Rattle.last_minute.specs.Planned.{HasBalance, path_of};
ghost use Rattle.trim.specs.Limits.{KeepsLimits};
ghost use Rattle.trim.specs.Refusals.{CanBeWeighed};
ghost use Rattle.trim.specs.Rules.{AreBroken};
ghost use Rattle.editions.specs.Documents.{IsSheetWith};
ghost use Rattle.editions.specs.Sound.{IsTaskAnswer};

use crate::flights::Flight;
use aircraft_file::Aircraft;
use base_words::NoMemory;
use flight_history::Reply;
use flight_row::write_row;
use flight_state::{FlightState, effective, effective_figures};
use keeper::Bytes;
use last_minute::sheet_of;
use std::alloc::Global;
use trim::{Figures, Rules, TrimFault, broken_rules, task_of};

/// A flight that is to stand so, with the task of its effective figures.
pub fn prepared(alloc: Global, a: &Aircraft, state: FlightState) -> Result<Flight, NoMemory>
    requires { HasRow a.now state }
    ensures state { IfOk result (λ flight. flight.state ≡ state) }
    ensures task { IfOk result (λ flight. IsTaskAnswer a.now state flight.task) }
{
    let figures = effective(alloc, &state)?;
    match task_of(alloc, a, &figures) {
        Ok(task) => Ok(Flight {
            state,
            task: Ok(task),
        }),
        Err(TrimFault::NoMemory) => Err(NoMemory),
        Err(fault) => Ok(Flight {
            state,
            task: Err(fault),
        }),
    }
}

/// The row of a flight.
pub fn row_of(alloc: Global, a: &Aircraft, flight: &FlightState) -> Result<Bytes, NoMemory>
    requires { HasRow a.now flight.now }
    ensures written { IfOk result (λ row. row ≡ row_text Two (row_of a.now flight.now)) }
    ensures read_back { (fleet : List Craft) → aircraft_of fleet flight.now.leg ≡ Some a.now → KeepsPlan a.now flight.now
        → IfOk result (λ row. Reads fleet row flight.now) }
{
    Ok(Bytes::from(write_row(alloc, a, flight)?))
}

/// The rules that a flight with a plan breaks, with these figures.
fn rules_broken(a: &Aircraft, flight: &FlightState, figures: &Figures) -> Rules
    requires limits { KeepsLimits figures.now }
    requires plan { IsSome flight.now.plan }
    requires complete { length (path_of flight.now) ≡ length figures.now.containers }
    requires weighed { CanBeWeighed a.now figures.now }
    ensures { AreBroken a.now figures.now (path_of flight.now) result.items }
{
    let Some(path) = &flight.plan else {
        unreachable!();
    };
    match broken_rules(a, figures, path) {
        Ok(rules) => rules,
        Err(_) => unreachable!(),
    }
}

/// The rules that a flight with a plan breaks.
pub fn broken_by(alloc: Global, a: &Aircraft, flight: &FlightState) -> Result<Rules, NoMemory>
    requires { HasBalance a.now flight.now }
    ensures { IfOk result (λ rules. AreBroken a.now (effective flight.now) (path_of flight.now) rules.items) }
{
    let figures = effective_figures(alloc, flight)?;
    Ok(rules_broken(a, flight, &figures))
}

/// The reply with the sheet of a flight that has a plan.
pub fn sheet_reply(alloc: Global, a: &Aircraft, flight: &FlightState) -> Result<Reply, NoMemory>
    requires { HasBalance a.now flight.now }
    ensures { IfOk result (IsSheetWith a.now flight.now) }
{
    Ok(Reply::Sheet(sheet_of(alloc, a, flight)?))
}
