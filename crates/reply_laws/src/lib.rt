//! Laws of the replies of an office: what its definitions say of a request, they say of one value.
//!
//! The definitions of `flight_history` and of the crates below it are relations: a verdict, a sheet or a reply is one that
//! fits. Here is that only one does, with all values that it carries; and that two histories which agree on a flight,
//! whatever else stands in them, give it the same verdicts and replies.
#![tactic(auto)]

mod laws;

pub use laws::{reply_laws, sheet_law, verdict_laws};
