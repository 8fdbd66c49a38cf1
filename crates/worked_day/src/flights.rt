//! The leg of the flight, and its key.

use aircraft_file::Registration;
use base_words::NoMemory;
use flight_state::{Day, FlightKey, FlightName, Leg, Station};

/// XX210 on the 12th, with this aircraft, from Frankfurt to Stockholm.
pub fn leg() -> Result<Leg, NoMemory> {
    Ok(Leg {
        flight: FlightName::read(b"XX210").ok_or(NoMemory)?,
        day: Day::read(b"12").ok_or(NoMemory)?,
        registration: Registration::read(b"DAIAB").ok_or(NoMemory)?,
        origin: Station::read(b"FRA").ok_or(NoMemory)?,
        destination: Station::read(b"ARN").ok_or(NoMemory)?,
    })
}

/// The key of the flight.
pub fn key() -> Result<FlightKey, NoMemory> {
    FlightKey::read(b"XX210-12").ok_or(NoMemory)
}
