//! Flights in transit, whole: what stays aboard, the task around it, and the onward container message.
#![tactic(auto)]

pub use transit_messages::{agree, staying, write_onward};
pub use transit_tasks::{TransitFault, with_staying};
