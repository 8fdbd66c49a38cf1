//! What a prefix of a task leaves open: which positions are free and open for the containers that are left, how far
//! the hold index and the lateral difference can still reach, and what makes a prefix viable. The definitions, their
//! laws, and the calls that faster programs begin with.
#![tactic(auto)]

mod bound;
mod extent;
mod laws;
mod limits;
mod rule;
mod span;

pub use bound::{gap_to_ideal, meets_lateral_limit, meets_window};
pub use extent::Extent;
pub use laws::reach_laws;
pub use limits::{broken_limit, load_loose};
pub use rule::{RuleBroken, accepts_kind_at};
pub use span::Span;
