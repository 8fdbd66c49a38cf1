//! An answer is kept: the row is committed, and then the flight is put in its place.

ghost use Rattle.std.specs.Prelude.{◌≡◌, ◌≤◌, List, Some, Err, IfOk, IfSome, IsTrue, OnOk, OnErr, slice_get};
ghost use Rattle.aircraft_file.specs.Craft.{Craft};
ghost use Rattle.base_words.specs.Faults.{Rose};
ghost use Rattle.flight_row.specs.declared.row.Version.TheVariants.{Two};
ghost use Rattle.flight_row.specs.Loading.{HasRow, KeepsPlan, Reads, aircraft_of, row_of};
ghost use Rattle.flight_row.specs.RowText.{row_text};
ghost use Rattle.flight_state.specs.Legs.{key_of};
ghost use Rattle.editions.specs.Answers.{HasFiguresOf, KeepsFigures, KeepsKey, MakesSound};
ghost use Rattle.editions.specs.Places.{states, state_at, HasPlace, IsPlaceOf};
ghost use Rattle.editions.specs.Settled.{IsKept, IsSame, IsSettledBy};
ghost use Rattle.editions.specs.Sound.{IsSound};

use crate::answers::Answer;
use crate::documents::{prepared, row_of};
use crate::flights::Flights;
use aircraft_file::Aircraft;
use base_words::NoMemory;
use flight_history::{Outcome, Refusal, Reply};
use flight_row::aircraft_of;
use flight_state::{FlightKey, FlightState};
use keeper::{Bytes, KeepFault, Keeper, KeptRow};
use std::alloc::Global;

/// Makes room for a flight of this key, where none is there.
fn make_room(flights: &mut Flights, place: Option<usize>, key: &FlightKey) -> Result<(), NoMemory>
    requires { IsPlaceOf (states flights.old.flights) key.now place }
    ensures same { flights.new.flights ≡ flights.old.flights }
    ensures room { OnOk result (HasPlace flights.new place key.now) }
{
    match place {
        Some(_) => Ok(()),
        None => flights.reserve(key),
    }
}

/// The row of a flight, as a keeper keeps it.
fn kept_row(alloc: Global, a: &Aircraft, flight: &FlightState) -> Result<KeptRow, NoMemory>
    requires { HasRow a.now flight.now }
    ensures key { IfOk result (λ row. row.key ≡ key_of flight.now.leg) }
    ensures written { IfOk result (λ row. row.bytes ≡ row_text Two (row_of a.now flight.now)) }
    ensures read_back { (fleet : List Craft) → aircraft_of fleet flight.now.leg ≡ Some a.now → KeepsPlan a.now flight.now
        → IfOk result (λ row. Reads fleet row.bytes flight.now) }
{
    let key = FlightKey::of(&flight.leg);
    Ok(KeptRow {
        key: Bytes::from(key.bytes().to_vec(alloc)?),
        bytes: row_of(alloc, a, flight)?,
    })
}

/// Keeps a flight that is to stand so, with its task. Committing its row is the last step that can fail.
fn keep_new<K: Keeper>(
    alloc: Global,
    keeper: &mut K,
    fleet: &[Aircraft],
    flights: &mut Flights,
    place: Option<usize>,
    key: &FlightKey,
    next: FlightState,
) -> Result<(), KeepFault>
    requires place { IsPlaceOf (states flights.old.flights) key.now place }
    requires key { key_of next.leg ≡ key.now }
    requires sound { IsSound fleet.now next }
    ensures kept { OnOk result (IsKept fleet.now place next flights.old.flights flights.new.flights (K.tables keeper.old) (K.tables keeper.new)) }
    ensures same { OnErr result (IsSame flights.old.flights flights.new.flights (K.tables keeper.old) (K.tables keeper.new)) }
    ensures cause { result ≡ Err KeepFault.Failed → Rose (K.faults keeper.old) (K.faults keeper.new) }
    ensures never_falls { K.faults keeper.old ≤ K.faults keeper.new }
{
    let Some(a) = aircraft_of(fleet, &next.leg) else {
        unreachable!();
    };
    let row = kept_row(alloc, a, &next)?;
    let flight = prepared(alloc, a, next)?;
    make_room(flights, place, key)?;
    keeper.commit(alloc, &row)?;
    flights.put(place, flight);
    Ok(())
}

/// Keeps the flight at a place that is to stand so, with the effective figures that it had: it has its task already.
fn keep_restated<K: Keeper>(
    alloc: Global,
    keeper: &mut K,
    fleet: &[Aircraft],
    flights: &mut Flights,
    place: usize,
    key: &FlightKey,
    next: FlightState,
) -> Result<(), KeepFault>
    requires place { IsPlaceOf (states flights.old.flights) key.now (Some place) }
    requires key { key_of next.leg ≡ key.now }
    requires sound { IsSound fleet.now next }
    requires figures { IfSome (slice_get flights.old.flights place) (λ flight. HasFiguresOf next flight.state) }
    ensures kept { OnOk result (IsKept fleet.now (Some place) next flights.old.flights flights.new.flights (K.tables keeper.old) (K.tables keeper.new)) }
    ensures same { OnErr result (IsSame flights.old.flights flights.new.flights (K.tables keeper.old) (K.tables keeper.new)) }
    ensures cause { result ≡ Err KeepFault.Failed → Rose (K.faults keeper.old) (K.faults keeper.new) }
    ensures never_falls { K.faults keeper.old ≤ K.faults keeper.new }
{
    let Some(a) = aircraft_of(fleet, &next.leg) else {
        unreachable!();
    };
    let row = kept_row(alloc, a, &next)?;
    keeper.commit(alloc, &row)?;
    flights.restate(place, next);
    Ok(())
}

/// Keeps a flight that is to stand so. Its task is made only where its effective figures change.
fn keep<K: Keeper>(
    alloc: Global,
    keeper: &mut K,
    fleet: &[Aircraft],
    flights: &mut Flights,
    place: Option<usize>,
    key: &FlightKey,
    next: FlightState,
    same_figures: bool,
) -> Result<(), KeepFault>
    requires place { IsPlaceOf (states flights.old.flights) key.now place }
    requires key { key_of next.leg ≡ key.now }
    requires sound { IsSound fleet.now next }
    requires figures { IsTrue same_figures → IfSome (state_at flights.old.flights place) (HasFiguresOf next) }
    ensures kept { OnOk result (IsKept fleet.now place next flights.old.flights flights.new.flights (K.tables keeper.old) (K.tables keeper.new)) }
    ensures same { OnErr result (IsSame flights.old.flights flights.new.flights (K.tables keeper.old) (K.tables keeper.new)) }
    ensures cause { result ≡ Err KeepFault.Failed → Rose (K.faults keeper.old) (K.faults keeper.new) }
    ensures never_falls { K.faults keeper.old ≤ K.faults keeper.new }
{
    match place {
        Some(there) if same_figures => {
            keep_restated(alloc, keeper, fleet, flights, there, key, next)
        }
        _ => keep_new(alloc, keeper, fleet, flights, place, key, next),
    }
}

/// What the answer asks for is kept, which may leave the effective figures of the flight as they are. How the turn ended,
/// and what is replied.
pub fn settle<K: Keeper>(
    alloc: Global,
    keeper: &mut K,
    fleet: &[Aircraft],
    flights: &mut Flights,
    place: Option<usize>,
    key: &FlightKey,
    same_figures: bool,
    answer: Result<Answer, NoMemory>,
) -> (Outcome, Reply)
    requires place { IsPlaceOf (states flights.old.flights) key.now place }
    requires key { IfOk answer (KeepsKey key.now) }
    requires sound { IfOk answer (MakesSound fleet.now) }
    requires figures { IsTrue same_figures → IfOk answer (KeepsFigures (state_at flights.old.flights place)) }
    ensures settled { IsSettledBy fleet.now place answer flights.old.flights flights.new.flights (K.tables keeper.old) (K.tables keeper.new) result.0 result.1 }
    ensures cause { result.0 ≡ Outcome.KeeperFailed → Rose (K.faults keeper.old) (K.faults keeper.new) }
    ensures never_falls { K.faults keeper.old ≤ K.faults keeper.new }
{
    match answer {
        Ok(Answer::Refused(refusal)) => (Outcome::Done, Reply::Refused(refusal)),
        Ok(Answer::Told(due)) => (Outcome::Done, due),
        Ok(Answer::Changed(next, due)) => {
            match keep(
                alloc,
                keeper,
                fleet,
                flights,
                place,
                key,
                next,
                same_figures,
            ) {
                Ok(()) => (Outcome::Done, due),
                Err(KeepFault::Failed) => (
                    Outcome::KeeperFailed,
                    Reply::Refused(Refusal::KeeperFault),
                ),
                Err(KeepFault::NoMemory) => (Outcome::NoMemory, Reply::NoMemory),
            }
        }
        Err(NoMemory) => (Outcome::NoMemory, Reply::NoMemory),
    }
}
