//! The keys of flights.

ghost use Rattle.std.specs.Prelude.{◌≡◌, ◌+◌, ◌≤◌, ◌++◌, length, true};
ghost use Rattle.aircraft_file.specs.Spellings.{spelled};
ghost use Rattle.flight_state.specs.Spellings.{is_flight_key};
ghost use Rattle.flight_state.specs.Legs.{key_of};

use crate::leg::Leg;
use crate::spelling::is_flight_key;
use arrayvec::ArrayVec;
use base_words::Letters;
use std::marker::Model;

/// The key of a flight: its name, a hyphen, and its day, as `XX210-12`. No two flights of the office have one key.
#[derive(Clone, Copy, Debug)]
pub struct FlightKey {
    letters: Letters<10>,
}

impl Model for FlightKey {
    ghost use Rattle.std.specs.Prelude.{◌≡◌, ℕ, List, true};
    ghost use Rattle.flight_state.specs.Spellings.{is_flight_key};

    ghost Value = { List ℕ };

    ghost view = { λ k. k.letters };

    ghost inverse = { λ letters. record { letters = letters } };

    ghost invariant = { λ k. is_flight_key k.letters ≡ true };
}

impl FlightKey {
    /// The key that the text spells. None exactly where it spells none.
    pub fn read(text: &[u8]) -> Option<FlightKey>
        ensures { result ≡ spelled is_flight_key text.now }
    {
        if !is_flight_key(text) {
            return None;
        }
        let letters = Letters::read(text)?;
        Some(FlightKey { letters })
    }

    /// The key of the leg.
    pub fn of(leg: &Leg) -> FlightKey
        ensures { result ≡ key_of leg.now }
    {
        let mut letters = ArrayVec::new();
        append(&mut letters, leg.flight.bytes());
        append(&mut letters, b"-");
        append(&mut letters, leg.day.bytes());
        match Letters::read(letters.as_slice()) {
            Some(letters) => FlightKey { letters },
            None => unreachable!(),
        }
    }

    /// The letters of the key.
    pub fn bytes(&self) -> &[u8]
        ensures value { result.now ≡ self.now }
        ensures spelled { is_flight_key self.now ≡ true }
    {
        self.letters.as_slice()
    }
}

/// Appends a text for which there is room.
fn append(letters: &mut ArrayVec<u8, 10>, text: &[u8])
    requires { length letters.old.items + length text.now ≤ 10 }
    ensures { letters.new.items ≡ letters.old.items ++ text.now }
{
    if letters.try_extend_from_slice(text).is_err() {
        unreachable!();
    }
}
