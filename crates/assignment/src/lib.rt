//! The least that containers cost on positions of their own, with prices that show that no other way costs less. By the
//! Hungarian method: H. W. Kuhn, "The Hungarian method for the assignment problem", 1955.
#![tactic(auto)]

mod candidate;
mod costs;
mod hungarian;
mod laws;
mod standing;
mod tree;

pub use candidate::Candidate;
pub use hungarian::{Assignment, cheapest};
pub use laws::price_laws;
