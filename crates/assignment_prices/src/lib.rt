//! Prices of containers and of positions, which show at once between which hold indices every placement that begins
//! with a prefix lies: what they mean, and whether they are such prices. What prices cannot better is the tight reach:
//! the least and the greatest hold index over all ways to give the remaining containers open positions of their own.
#![tactic(auto)]

mod end;
mod laws;
mod price_span;
mod prices;

pub use end::End;
pub use laws::tight_reach_laws;
pub use price_span::{span, total_of};
pub use prices::Prices;
