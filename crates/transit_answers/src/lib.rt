//! What is answered about a flight in transit: the best placement around what stays aboard, with the message with which
//! the flight goes on, or the task of that placement.
#![tactic(auto)]

mod answers;
mod flight;
mod limits;
mod refusal_lines;

pub use answers::{TransitQuestion, answer_in_transit};
pub use flight::InTransit;
pub use limits::LONGEST_MESSAGE;
pub use refusal_lines::{line_of_message_fault, line_of_transit_fault};
