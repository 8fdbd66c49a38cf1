//! Prices that are raised for a choice until their value is beyond the ticks: step by step, over the cheapest assignments of
//! containers to different positions. Nothing rests on how good they are, since what is found by them is checked.
#![tactic(auto)]

mod costs;
mod excess;
mod growth;
mod matching;
mod opposed;
mod prices;
mod raise;
mod standing;

pub use costs::Costs;
pub use prices::{Held, Pair, Prices};
pub use raise::Raising;
