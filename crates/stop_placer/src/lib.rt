//! The search for the best placement over several sectors.
#![tactic(auto)]

mod answer;
mod children;
mod explorer;

pub use answer::{StopAnswer, place_stops};
