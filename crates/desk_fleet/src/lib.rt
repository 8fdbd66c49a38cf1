//! The fleet of an office: one file for each aircraft, read and judged in the order in which they are named.
#![tactic(auto)]

mod fault;
mod fleet;
mod laws;
mod lines;

pub use fault::{FileReason, FleetFault, RefusedFile};
pub use fleet::fleet_from;
pub use laws::fleet_laws;
pub use lines::line_of_refusal;
