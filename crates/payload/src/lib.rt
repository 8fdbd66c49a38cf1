//! The traffic load of a flight: its cabin by zones, and its loose load by pieces.
//!
//! Passengers and bags are not weighed but counted, each at the operator's average for their kind
//! (AC 120-27F). A mass has an index, by the index method of the FAA's Aircraft Weight and Balance
//! Handbook (FAA-H-8083-1B): the mass times the influence of where it is carried. Masses are whole
//! kilograms, indices ticks of 1/100000 index unit, and influences ticks per kilogram.
//!
//! Nothing here allocates.
#![tactic(auto)]

mod cabin;
mod figures;
mod loading;

pub use cabin::Cabin;
pub use figures::{Averages, Load, PayFault, Zone, ZoneCount};
pub use loading::{MOST_LOOSE, cabin_load, loose_mass};
