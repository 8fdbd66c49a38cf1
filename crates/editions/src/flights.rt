//! The flights of the office, found by their keys.

ghost use Rattle.std.specs.Prelude.{◌≡◌, ◌<◌, [], length, slice_get, Some, None, false, OnOk, bytes_eq};
ghost use Rattle.std.specs.Option.{option_map_or};
ghost use Rattle.flight_state.specs.Legs.{key_of};
ghost use Rattle.editions.specs.Places.{states, put_in, HasPlace, IsPlaceOf, IsReserved, IsRestated};

use arrayvec::ArrayVec;
use base_words::NoMemory;
use flight_state::{FlightKey, FlightState};
use hold_limits::Task;
use std::alloc::Global;
use std::collections::BTreeMap;
use std::marker::Model;
use trim::TrimFault;

/// A flight as it stands, with the task of its effective figures, or why there is none. The task is made when the
/// figures change, so that a plan's task can be compared with it where memory has run out.
#[derive(Debug, Drop)]
pub struct Flight {
    pub state: FlightState,
    pub task: Result<Task, TrimFault>,
}

/// The letters of a key.
type KeyText = ArrayVec<u8, 10>;

/// Flights in the order in which they came, and where each key was put. A key whose flight was never put has a place
/// too, at which another flight may stand by now.
#[derive(Drop)]
pub struct Flights {
    list: Vec<Flight>,
    places: BTreeMap<KeyText, usize>,
}

impl Model for Flights {
    ghost use Rattle.std.specs.Prelude.{◌-◌, vec_len, vec_capacity};
    ghost use Rattle.editions.specs.Places.{Table, IsIndexed, place_in};

    ghost Value = { Table };

    ghost view = { λ f. record {
      flights = f.list.items;
      room = vec_capacity f.list - vec_len f.list;
      places = f.places.entries;
    } };

    ghost invariant = { λ f. IsIndexed f.list.items (place_in f.places.entries) };
}

/// The letters of the key.
fn text_of(key: &FlightKey) -> KeyText
    ensures { result.items ≡ key.now }
{
    match ArrayVec::try_from(key.bytes()) {
        Ok(text) => text,
        Err(_) => unreachable!(),
    }
}

/// Whether the key is the flight's.
fn has_key(flight: &Flight, key: &FlightKey) -> bool
    ensures { result ≡ bytes_eq (key_of flight.now.state.leg) key.now }
{
    FlightKey::of(&flight.state.leg).bytes() == key.bytes()
}

impl Flights {
    /// No flights.
    pub fn new(alloc: Global) -> Flights
        ensures { result.flights ≡ [] }
    {
        Flights {
            list: Vec::new(alloc),
            places: BTreeMap::new(alloc),
        }
    }

    /// How many flights there are.
    pub fn len(&self) -> usize
        ensures { result ≡ length self.now.flights }
    {
        self.list.len()
    }

    /// The place of the flight of this key.
    pub fn place_of(&self, key: &FlightKey) -> Option<usize>
        ensures { IsPlaceOf (states self.now.flights) key.now result }
    {
        let Some(&place) = self.places.get(&text_of(key)) else {
            return None;
        };
        if self.stands_at(place, key) {
            Some(place)
        } else {
            None
        }
    }

    /// Whether a flight of this key stands at the place.
    fn stands_at(&self, place: usize, key: &FlightKey) -> bool
        ensures { result ≡ option_map_or (λ flight. bytes_eq (key_of flight.state.leg) key.now) (slice_get self.now.flights place) false }
    {
        match self.list.get(place) {
            Some(flight) => has_key(flight, key),
            None => false,
        }
    }

    /// The flight at the place.
    pub fn at(&self, place: usize) -> &Flight
        requires { place < length self.now.flights }
        ensures { slice_get self.now.flights place ≡ Some result.now }
    {
        &self.list[place]
    }

    /// Makes room for a flight of this key where none is there.
    pub fn reserve(&mut self, key: &FlightKey) -> Result<(), NoMemory>
        requires { IsPlaceOf (states self.old.flights) key.now None }
        ensures same { self.new.flights ≡ self.old.flights }
        ensures reserved { OnOk result (IsReserved self.new key.now) }
    {
        self.list.reserve(1)?;
        self.places.insert(text_of(key), self.list.len())?;
        Ok(())
    }

    /// States anew the flight at a place, whose task stays.
    pub fn restate(&mut self, place: usize, state: FlightState)
        requires { IsPlaceOf (states self.old.flights) (key_of state.leg) (Some place) }
        ensures { IsRestated self.old.flights place state self.new.flights }
    {
        self.list[place].state = state;
    }

    /// Puts a flight in the place of the one of its key, or behind the last.
    pub fn put(&mut self, place: Option<usize>, flight: Flight)
        requires place { IsPlaceOf (states self.old.flights) (key_of flight.state.leg) place }
        requires room { HasPlace self.old place (key_of flight.state.leg) }
        ensures { self.new.flights ≡ put_in self.old.flights place flight }
    {
        match place {
            Some(i) => self.list[i] = flight,
            None => self.list.push_reserved(flight),
        }
    }
}
