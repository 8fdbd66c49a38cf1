//! The state of a flight, from its opening to its departure.
//!
//! A flight has a leg, an edition, a stage, figures, a plan where its hold is planned, and late changes where it is
//! released. The figures that count are its base figures with the late changes added in their order.
#![tactic(auto)]

mod change;
mod changing;
mod key;
mod leg;
mod spelling;
mod state;
mod texts;

pub use change::{Lmc, Lmcs};
pub use changing::{can_add, changed_load, effective, effective_figures, with_change};
pub use key::FlightKey;
pub use leg::Leg;
pub use state::{FlightState, Stage};
pub use texts::{Day, FlightName, Station};
