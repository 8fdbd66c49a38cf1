//! Bodies of requests: what a dispatcher tells of a flight, as JSON and as a table of containers.
#![tactic(auto)]

mod acts;
mod containers;
mod fault;
mod figures;
mod json;
mod lists;
mod object;
mod values;

pub use acts::{read_budget, read_change, read_leg, read_looks};
pub use containers::read_containers;
pub use fault::BodyFault;
pub use figures::{read_dry, read_fuel, read_limits};
pub use lists::{read_cabin, read_loose};
