//! The messages of a flight in transit: which places of the inbound container message stay aboard, whether the two
//! inbound messages agree, and the onward container message.
#![tactic(auto)]

mod agreement;
mod entries;
mod onward;

pub use agreement::{agree, staying};
pub use onward::write_onward;
