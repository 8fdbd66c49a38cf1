//! The office.

ghost use Rattle.std.specs.Prelude.{◌≡◌, ◌≢◌, ◌+◌, ◌<◌, ◌≤◌, ◌^◌, [], nat_le, length, vec_len, vec_capacity, All, Err, IfOk, IfErr, IfSome};
ghost use Rattle.aircraft_file.specs.Craft.{AreApart};
ghost use Rattle.base_words.specs.Faults.{Rose};
ghost use Rattle.editions.specs.Acts.{IsWithinLimits};
ghost use Rattle.editions.specs.Answers.{IsAnswer, IsLawfulAt, MakesSound};
ghost use Rattle.editions.specs.Books.{HasTables, IsTurn, KnowsHistory, OpensAsKept};
ghost use Rattle.editions.specs.Places.{state_at};
ghost use Rattle.editions.specs.Sound.{IsKeptFlight};
ghost use Rattle.editions.specs.StartRows.{AreFlightsOf};
ghost use Rattle.editions.specs.Starting.{AreLoaded, IsLoadFault, IsStarted, IsRefusedStart};

use crate::acts::{keeps_figures, key_of};
use crate::answers::{Answer, answer_elsewhere, answer_there};
use crate::asking::act_at;
use crate::flights::Flights;
use crate::settling::settle;
use crate::starting::{StartFault, StartingFlights, starting_flights};
use aircraft_file::Aircraft;
use base_words::NoMemory;
use flight_history::{Act, Entry, Reply, Request};
use flight_row::aircraft_of;
use flight_state::FlightState;
use keeper::{KeepFault, Keeper, KeptRow};
use std::alloc::Global;
use std::marker::Model;

/// The most flights of an office.
const MOST_FLIGHTS: usize = 2_000;

/// An office: its fleet, the rows and the flights that it opened with, the flights as they stand, and the history of all
/// requests.
#[derive(Drop)]
pub struct Office {
    fleet: Vec<Aircraft>,
    rows: Vec<KeptRow>,
    opening: Vec<FlightState>,
    flights: Flights,
    history: Vec<Entry>,
    spare: u64,
}

impl Model for Office {
    ghost use Rattle.std.specs.Prelude.{◌+◌, ◌≤◌, vec_len, vec_capacity};
    ghost use Rattle.editions.specs.Books.{Books, IsOffice};
    ghost use Rattle.editions.specs.StartRows.{AreFlightsOf};

    ghost Value = { Books };

    ghost view = { λ o. record {
      fleet = o.fleet.items;
      rows = o.rows.items;
      opening = o.opening.items;
      history = o.history.items;
      spare = o.spare;
    } };

    ghost invariant = { λ o. IsOffice o.fleet.items o.rows.items o.opening.items o.history.items o.flights.flights
        × AreFlightsOf o.fleet.items o.rows.items o.opening.items
        × (vec_len o.history + o.spare ≤ vec_capacity o.history) };
}

/// The answer to an act at the flight of this place, or where none of its key is there.
fn answer_at(
    alloc: Global,
    fleet: &[Aircraft],
    flights: &Flights,
    place: Option<usize>,
    act: &Act,
) -> Result<Answer, NoMemory>
    requires kept { All (IsKeptFlight fleet.now) flights.now.flights }
    requires within { IfSome place (λ i. i < length flights.now.flights) }
    ensures answer { IfOk result (IsAnswer fleet.now (nat_le 2000 (length flights.now.flights)) (state_at flights.now.flights place) act.now) }
    ensures sound { IsLawfulAt fleet.now (state_at flights.now.flights place) act.now → IfOk result (MakesSound fleet.now) }
{
    let Some(i) = place else {
        return answer_elsewhere(alloc, fleet, flights.len() >= MOST_FLIGHTS, act);
    };
    let flight = flights.at(i);
    let Some(a) = aircraft_of(fleet, &flight.state.leg) else {
        unreachable!();
    };
    answer_there(alloc, a, flight, act)
}

/// The rows that the keeper has.
fn load<K: Keeper>(alloc: Global, keeper: &mut K) -> Result<Vec<KeptRow>, StartFault>
    ensures loaded { IfOk result (λ rows. AreLoaded (K.tables keeper.old) rows.items) }
    ensures same_tables { K.tables keeper.new ≡ K.tables keeper.old }
    ensures refused { IfErr result IsLoadFault }
    ensures cause { result ≡ Err StartFault.Keeper → Rose (K.faults keeper.old) (K.faults keeper.new) }
    ensures same_count { result ≢ Err StartFault.Keeper → K.faults keeper.new ≡ K.faults keeper.old }
    ensures never_falls { K.faults keeper.old ≤ K.faults keeper.new }
{
    match keeper.load(alloc) {
        Ok(rows) => Ok(rows),
        Err(KeepFault::Failed) => Err(StartFault::Keeper),
        Err(KeepFault::NoMemory) => Err(StartFault::NoMemory),
    }
}

/// A history with room for so many entries.
fn reserved(alloc: Global, capacity: u64) -> Result<Vec<Entry>, NoMemory>
    requires { capacity < 2 ^ 63 }
    ensures empty { IfOk result (λ history. history.items ≡ []) }
    ensures room { IfOk result (λ history. vec_len history + capacity ≤ vec_capacity history) }
{
    let mut history = Vec::new(alloc);
    history.reserve_exact(capacity as usize)?;
    Ok(history)
}

impl Office {
    /// An office with the flights whose rows are kept, and with so many entries reserved.
    pub fn start<K: Keeper>(
        alloc: Global,
        fleet: Vec<Aircraft>,
        capacity: u64,
        keeper: &mut K,
    ) -> Result<Office, StartFault>
        requires capacity { capacity < 2 ^ 63 }
        requires apart { AreApart fleet.items }
        ensures started { IfOk result (IsStarted fleet.items capacity (K.tables keeper.old)) }
        ensures tables { IfOk result (HasTables (K.tables keeper.new)) }
        ensures refused { IfErr result (IsRefusedStart fleet.items (K.tables keeper.old)) }

        // Whether the office starts or not, the keeper's rows stay as they were, and its count rises with its own refusal alone.
        ensures same_tables { K.tables keeper.new ≡ K.tables keeper.old }
        ensures cause { result ≡ Err StartFault.Keeper → Rose (K.faults keeper.old) (K.faults keeper.new) }
        ensures same_count { result ≢ Err StartFault.Keeper → K.faults keeper.new ≡ K.faults keeper.old }
        ensures never_falls { K.faults keeper.old ≤ K.faults keeper.new }
    {
        let rows = load(alloc, keeper)?;
        let found = starting_flights(alloc, &fleet, &rows)?;
        let history = reserved(alloc, capacity)?;
        let StartingFlights { opening, flights } = found;
        Ok(Office {
            fleet,
            rows,
            opening,
            flights,
            history,
            spare: capacity,
        })
    }

    /// The flights that the office opened with, in the order of their keys.
    pub fn opening(&self) -> &[FlightState]
        ensures all { result.now ≡ self.now.opening }
        ensures loaded { AreFlightsOf self.now.fleet self.now.rows result.now }
    {
        &self.opening
    }

    /// The history of all requests.
    pub fn history(&self) -> &[Entry]
        ensures all { result.now ≡ self.now.history }
        ensures best { KnowsHistory self.now }
    {
        &self.history
    }

    /// How many entries are still spare.
    pub fn spare(&self) -> u64
        ensures { result ≡ self.now.spare }
    {
        self.spare
    }

    /// The flights that the office opened with, and the history of all requests.
    pub fn parts(self) -> (Vec<FlightState>, Vec<Entry>)
        ensures opening { result.0.items ≡ self.opening }
        ensures history { result.1.items ≡ self.history }
    {
        (self.opening, self.history)
    }

    /// An office that is started, with the same fleet, on the tables that another one kept opens with the standings that
    /// were kept.
    pub fn opens_as_kept(&self, kept: &Office)
        ensures { OpensAsKept kept.now self.now }
    {
        let _own = self.spare;
        let _other = kept.spare;
    }

    /// Answers one request of a desk, and writes down one entry.
    pub fn turn<K: Keeper>(
        &mut self,
        alloc: Global,
        keeper: &mut K,
        desk: u32,
        request: Request,
    ) -> Reply
        requires spare { 0 < self.old.spare }
        requires within { IsWithinLimits request }
        ensures turn { IsTurn self.old self.new (K.faults keeper.old) (K.faults keeper.new) desk request result }
        ensures tables { HasTables (K.tables keeper.old) self.old → HasTables (K.tables keeper.new) self.new }
        ensures never_falls { K.faults keeper.old ≤ K.faults keeper.new }
    {
        let key = key_of(&request);
        let place = self.flights.place_of(&key);
        let act = act_at(&self.flights, place, request);
        let answer = answer_at(alloc, &self.fleet, &self.flights, place, &act);
        let (outcome, reply) = settle(
            alloc,
            keeper,
            &self.fleet,
            &mut self.flights,
            place,
            &key,
            keeps_figures(&act),
            answer,
        );
        let entry = Entry {
            desk,
            key,
            act,
            outcome,
        };
        self.history.push_reserved(entry);
        self.spare -= 1;
        reply
    }
}
