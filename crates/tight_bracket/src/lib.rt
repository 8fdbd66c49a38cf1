//! Between what and what the tight reach of a placement lies, found in a few steps from that of a placement with one
//! container fewer.
#![tactic(auto)]

mod bracket;

pub use bracket::Bracket;
