//! Prices of what a hold has little of, what they say at once of the hold indices of many placements, and how trees of
//! such reasons show that a plan is the best one, or that there is none.
#![tactic(auto)]

mod laws;

pub use laws::{price_laws, tree_laws};
