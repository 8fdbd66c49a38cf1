//! What a request over HTTP asks of the office, or why it is refused before its turn.
#![tactic(auto)]

mod asked;
mod wanted;

pub use asked::{Asked, read_request};
