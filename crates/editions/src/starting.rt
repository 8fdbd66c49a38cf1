//! An office starts with the flights whose rows are kept.

ghost use Rattle.std.specs.Prelude.{◌≡◌, ◌≢◌, ◌≤◌, ◌↔◌, [], ◌∷◌, ◌++◌, length, All, AllPairs, None, IsTrue, OnOk, IfOk, IfErr, IfSome, IfNone};
ghost use Rattle.flight_state.specs.Legs.{key_of};
ghost use Rattle.keeper.specs.Tables.{AreInKeyOrder};
ghost use Rattle.editions.specs.Places.{states, IsPlaceOf};
ghost use Rattle.editions.specs.Sound.{IsKeptFlight, IsSound};
ghost use Rattle.editions.specs.StartRows.{AreFlightsOf, HasOneMore, HaveOtherKeys, IsFirstFault, IsFlightOf, IsGoodRow, IsRowFault, IsStartRefused};

use crate::documents::prepared;
use crate::flights::Flights;
use aircraft_file::Aircraft;
use base_words::NoMemory;
use flight_row::{RowFault, aircraft_of, read_row};
use flight_state::{FlightKey, FlightState};
use keeper::{Bytes, KeptRow};
use std::alloc::Global;

/// The most rows that an office starts with.
const MOST_ROWS: usize = 2_000;

/// Why an office does not start.
#[derive(Debug, Drop)]
pub enum StartFault {
    /// The keeper failed, and has counted it.
    Keeper,
    /// The bytes under this key are no row, are the row of an aircraft that the fleet does not have, or are that of a
    /// flight with another key. It is the first such row.
    BadTable(Bytes),
    /// There are over 2,000 rows.
    TooMany,
    /// Out of memory.
    NoMemory,
}

impl From<NoMemory> for StartFault {
    ghost use Rattle.std.specs.Prelude.{◌≡◌};
    ghost use Rattle.editions.specs.declared.starting.StartFault.TheVariants.{NoMemory as out_of_memory};

    ghost from_gives = { λ _ fault. fault ≡ out_of_memory };

    fn from(_: NoMemory) -> StartFault {
        StartFault::NoMemory
    }
}

/// The flights of an office before the first request.
#[derive(Drop)]
pub struct StartingFlights {
    pub opening: Vec<FlightState>,
    pub flights: Flights,
}

/// The flight, where its key is that of the row.
fn under_key(row: &KeptRow, state: FlightState) -> Option<FlightState>
    ensures found { IfSome result (λ s. (s ≡ state) × (row.now.key ≡ key_of s.leg)) }
    ensures none { IfNone result (row.now.key ≢ key_of state.leg) }
{
    if FlightKey::of(&state.leg).bytes() == row.key.as_slice() {
        Some(state)
    } else {
        None
    }
}

/// No flight, where the fault lies in the row.
fn no_flight(fault: RowFault) -> Result<Option<FlightState>, NoMemory>
    ensures { IfOk result (λ found. (found ≡ None) × (fault ≢ RowFault.NoMemory)) }
{
    match fault {
        RowFault::NoMemory => Err(NoMemory),
        RowFault::Line(_) | RowFault::NoEnd | RowFault::NoAircraft => Ok(None),
    }
}

/// The flight of a row. None where the row is not one of its key and of the fleet.
fn flight_of(
    alloc: Global,
    fleet: &[Aircraft],
    row: &KeptRow,
) -> Result<Option<FlightState>, NoMemory>
    ensures found { IfOk result (λ found. IfSome found (IsFlightOf fleet.now row.now)) }
    ensures sound { IfOk result (λ found. IfSome found (IsSound fleet.now)) }
    ensures none { IfOk result (λ found. IfNone found (¬ (IsGoodRow fleet.now row.now))) }
{
    match read_row(alloc, fleet, row.bytes.as_slice()) {
        Ok(state) => {
            let _aircraft = aircraft_of(fleet, &state.leg);
            Ok(under_key(row, state))
        }
        Err(fault) => no_flight(fault),
    }
}

/// The same bytes, in memory of their own.
fn same_bytes(alloc: Global, bytes: &Bytes) -> Result<Bytes, NoMemory>
    ensures { IfOk result (λ copy. copy ≡ bytes.now) }
{
    Ok(Bytes::from(bytes.as_slice().to_vec(alloc)?))
}

/// The flight of a row, or the fault that names its key.
fn flight_or_fault(
    alloc: Global,
    fleet: &[Aircraft],
    row: &KeptRow,
) -> Result<FlightState, StartFault>
    ensures found { IfOk result (IsFlightOf fleet.now row.now) }
    ensures sound { IfOk result (IsSound fleet.now) }
    ensures refused { IfErr result (IsRowFault fleet.now row.now) }
{
    match flight_of(alloc, fleet, row)? {
        Some(state) => Ok(state),
        None => Err(StartFault::BadTable(same_bytes(alloc, &row.key)?)),
    }
}

/// One flight more, behind the others.
fn push_flight(opening: &mut Vec<FlightState>, state: FlightState) -> Result<(), NoMemory>
    ensures { OnOk result (opening.new.items ≡ opening.old.items ++ state ∷ []) }
{
    opening.push(state)?;
    Ok(())
}

/// The flights of the rows, in their order.
fn flights_in(
    alloc: Global,
    fleet: &[Aircraft],
    rows: &[KeptRow],
) -> Result<Vec<FlightState>, StartFault>
    ensures opened { IfOk result (λ opening. AreFlightsOf fleet.now rows.now opening.items) }
    ensures sound { IfOk result (λ opening. All (IsSound fleet.now) opening.items) }
    ensures refused { IfErr result (IsFirstFault fleet.now rows.now) }
{
    let mut opening = Vec::new(alloc);
    for row in rows {
        let state = flight_or_fault(alloc, fleet, row)?;
        push_flight(&mut opening, state)?;
    }
    Ok(opening)
}

/// Whether there are no more rows than there may be.
fn are_few(rows: &[KeptRow]) -> bool
    ensures { IsTrue result ↔ (length rows.now ≤ 2000) }
{
    rows.len() <= MOST_ROWS
}

/// The flights of the rows, in their order, of which there are no more than there may be.
fn opening_of(
    alloc: Global,
    fleet: &[Aircraft],
    rows: &[KeptRow],
) -> Result<Vec<FlightState>, StartFault>
    ensures opened { IfOk result (λ opening. AreFlightsOf fleet.now rows.now opening.items) }
    ensures sound { IfOk result (λ opening. All (IsSound fleet.now) opening.items) }
    ensures few { IfOk result (λ _. length rows.now ≤ 2000) }
    ensures refused { IfErr result (IsStartRefused fleet.now rows.now) }
{
    let opening = flights_in(alloc, fleet, rows)?;
    if !are_few(rows) {
        return Err(StartFault::TooMany);
    }
    Ok(opening)
}

/// One flight more, with its task, where none of its key is there.
fn add_flight(
    alloc: Global,
    fleet: &[Aircraft],
    flights: &mut Flights,
    state: &FlightState,
) -> Result<(), NoMemory>
    requires sound { IsSound fleet.now state.now }
    requires place { IsPlaceOf (states flights.old.flights) (key_of state.now.leg) None }
    ensures { OnOk result (HasOneMore fleet.now flights.old.flights flights.new.flights state.now) }
{
    let Some(a) = aircraft_of(fleet, &state.leg) else {
        unreachable!();
    };
    let copy = state.clone()?;
    let flight = prepared(alloc, a, copy)?;
    let key = FlightKey::of(&state.leg);
    flights.reserve(&key)?;
    flights.put(None, flight);
    Ok(())
}

/// The same flights, each with its task.
fn flights_of(
    alloc: Global,
    fleet: &[Aircraft],
    opening: &[FlightState],
) -> Result<Flights, NoMemory>
    requires sound { All (IsSound fleet.now) opening.now }
    requires apart { AllPairs HaveOtherKeys opening.now }
    ensures same { IfOk result (λ flights. states flights.flights ≡ opening.now) }
    ensures kept { IfOk result (λ flights. All (IsKeptFlight fleet.now) flights.flights) }
{
    let mut flights = Flights::new(alloc);
    for state in opening {
        add_flight(alloc, fleet, &mut flights, state)?;
    }
    Ok(flights)
}

/// The flights that an office opens with, or why it does not start.
pub fn starting_flights(
    alloc: Global,
    fleet: &[Aircraft],
    rows: &[KeptRow],
) -> Result<StartingFlights, StartFault>
    requires { AreInKeyOrder rows.now }
    ensures opened { IfOk result (λ found. AreFlightsOf fleet.now rows.now found.opening.items) }
    ensures few { IfOk result (λ _. length rows.now ≤ 2000) }
    ensures same { IfOk result (λ found. states found.flights.flights ≡ found.opening.items) }
    ensures kept { IfOk result (λ found. All (IsKeptFlight fleet.now) found.flights.flights) }
    ensures refused { IfErr result (IsStartRefused fleet.now rows.now) }
{
    let opening = opening_of(alloc, fleet, rows)?;
    let flights = flights_of(alloc, fleet, &opening)?;
    Ok(StartingFlights { opening, flights })
}
