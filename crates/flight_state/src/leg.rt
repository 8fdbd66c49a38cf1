//! The leg that a flight flies.

use crate::texts::{Day, FlightName, Station};
use aircraft_file::Registration;

/// The leg of a flight: which flight it is, on which day, with which aircraft, and between which stations.
#[derive(Clone, Copy, Debug)]
pub struct Leg {
    pub flight: FlightName,
    pub day: Day,
    pub registration: Registration,
    pub origin: Station,
    pub destination: Station,
}
