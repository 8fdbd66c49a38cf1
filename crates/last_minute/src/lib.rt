//! Late changes and sheets of flights: what may still change after a flight's release, and what its documents state.
#![tactic(auto)]

mod fault;
mod issuing;
mod late;
mod loads;
mod places;
mod sheet;
mod unplaced;

pub use fault::LmcFault;
pub use flight_row::{RowFault, read_row, write_row};
pub use flight_state::{
    Day, FlightKey, FlightName, FlightState, Leg, Lmc, Lmcs, Stage, Station, effective,
};
pub use issuing::sheet_of;
pub use late::apply_lmc;
pub use sheet::{Place, PlaceList, Sheet};
