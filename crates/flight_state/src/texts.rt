//! The small texts of a flight.

ghost use Rattle.std.specs.Prelude.{◌≡◌, true};
ghost use Rattle.aircraft_file.specs.Spellings.{spelled};
ghost use Rattle.flight_state.specs.Spellings.{is_day, is_flight_name, is_station};

use crate::spelling::{is_day, is_flight_name, is_station};
use base_words::Letters;
use std::marker::Model;

/// The name of a flight: an airline's two capitals or digits, a number of 1 to 4 digits, and at most one capital, as
/// `XX210`.
#[derive(Clone, Copy, Debug)]
pub struct FlightName {
    letters: Letters<7>,
}

impl Model for FlightName {
    ghost use Rattle.std.specs.Prelude.{◌≡◌, ℕ, List, true};
    ghost use Rattle.flight_state.specs.Spellings.{is_flight_name};

    ghost Value = { List ℕ };

    ghost view = { λ f. f.letters };

    ghost inverse = { λ letters. record { letters = letters } };

    ghost invariant = { λ f. is_flight_name f.letters ≡ true };
}

impl FlightName {
    /// The flight that the text spells. None exactly where it spells none.
    pub fn read(text: &[u8]) -> Option<FlightName>
        ensures { result ≡ spelled is_flight_name text.now }
    {
        if !is_flight_name(text) {
            return None;
        }
        let letters = Letters::read(text)?;
        Some(FlightName { letters })
    }

    /// The letters of the flight.
    pub fn bytes(&self) -> &[u8]
        ensures value { result.now ≡ self.now }
        ensures spelled { is_flight_name self.now ≡ true }
    {
        self.letters.as_slice()
    }
}

/// The day of a month, as two digits: `01` to `31`.
#[derive(Clone, Copy, Debug)]
pub struct Day {
    digits: Letters<2>,
}

impl Model for Day {
    ghost use Rattle.std.specs.Prelude.{◌≡◌, ℕ, List, true};
    ghost use Rattle.flight_state.specs.Spellings.{is_day};

    ghost Value = { List ℕ };

    ghost view = { λ d. d.digits };

    ghost inverse = { λ digits. record { digits = digits } };

    ghost invariant = { λ d. is_day d.digits ≡ true };
}

impl Day {
    /// The day that the text spells. None exactly where it spells none.
    pub fn read(text: &[u8]) -> Option<Day>
        ensures { result ≡ spelled is_day text.now }
    {
        if !is_day(text) {
            return None;
        }
        let digits = Letters::read(text)?;
        Some(Day { digits })
    }

    /// The two digits of the day.
    pub fn bytes(&self) -> &[u8]
        ensures value { result.now ≡ self.now }
        ensures spelled { is_day self.now ≡ true }
    {
        self.digits.as_slice()
    }
}

/// A station: three capitals.
#[derive(Clone, Copy, Debug)]
pub struct Station {
    letters: Letters<3>,
}

impl Model for Station {
    ghost use Rattle.std.specs.Prelude.{◌≡◌, ℕ, List, true};
    ghost use Rattle.flight_state.specs.Spellings.{is_station};

    ghost Value = { List ℕ };

    ghost view = { λ s. s.letters };

    ghost inverse = { λ letters. record { letters = letters } };

    ghost invariant = { λ s. is_station s.letters ≡ true };
}

impl Station {
    /// The station that the text spells. None exactly where it spells none.
    pub fn read(text: &[u8]) -> Option<Station>
        ensures { result ≡ spelled is_station text.now }
    {
        if !is_station(text) {
            return None;
        }
        let letters = Letters::read(text)?;
        Some(Station { letters })
    }

    /// The letters of the station.
    pub fn bytes(&self) -> &[u8]
        ensures value { result.now ≡ self.now }
        ensures spelled { is_station self.now ≡ true }
    {
        self.letters.as_slice()
    }
}
