//! The search for the best placement of a task by the tight reach, with a certificate of prices.
#![tactic(auto)]

mod answer;
mod answer_text;
mod horizon;
mod laws;
mod priced_cuts;

pub use answer::{PricedAnswer, place_priced};
pub use answer_text::write_priced;
pub use laws::price_near_laws;
