//! The sheet of a flight: every figure of its documents.

use aircraft_file::Version;
use base_words::ListOf;
use flight_state::{Leg, Lmcs};
use hold_limits::{Name, UldId};
use mass_units::Kg;
use trim::{Balance, Dry, Fuel, Regulated};

/// A position of the hold, with what stands on it.
#[derive(Clone, Copy, Debug)]
pub struct Place {
    pub name: Name,
    pub compartment: u8,
    pub bulk: bool,
    /// The container on the position, where one stands there.
    pub id: Option<UldId>,
    /// The mass on the position.
    pub mass: Kg,
}

/// The positions of a hold, with what stands on them.
pub type PlaceList = ListOf<Place>;

/// The figures of a flight that its documents state. All are those with the late changes.
#[derive(Debug, Drop)]
pub struct Sheet {
    pub leg: Leg,
    pub version: Version,
    pub edition: u32,
    pub dry: Dry,
    pub fuel: Fuel,
    pub regulated: Regulated,
    /// The certified zero-fuel mass.
    pub max_zero_fuel: Kg,
    pub adults: u32,
    pub children: u32,
    pub infants: u32,
    pub cabin_mass: Kg,
    pub container_mass: Kg,
    pub loose_mass: Kg,
    pub balance: Balance,
    /// Hundredths of a percent of the mean aerodynamic chord, of zero fuel, take-off and landing.
    pub mac: [i128; 3],
    pub places: PlaceList,
    pub lmcs: Lmcs,
}
