//! A plan of the hold that is proved to be the best, whatever the evidence was.
//!
//! A search comes with evidence of its own kind, that of cuts or that of trees. Who takes a plan needs none of it, but
//! that there was some: a plan of this kind cannot be made without.
#![tactic(auto)]

mod plan;

pub use plan::BestPlan;
