//! The tight reach of a prefix, and prices whose span it is: by the cheapest and the dearest way to give the containers
//! that are left open positions of their own.
#![tactic(auto)]

mod candidates;
mod ends;
mod tight_reach;

pub use candidates::{Candidates, Influences, candidates_of, influences_of};
pub use tight_reach::{prices_of, tight};
