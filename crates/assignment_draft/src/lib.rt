//! Between what and what the cheapest assignment costs, found in a few steps from the draft of almost the same
//! candidates: by prices that hold, though they need not be the greatest, and a way, which need not be the cheapest.
#![tactic(auto)]

mod draft;
mod prices;
mod search;
mod seats;

pub use draft::Draft;
