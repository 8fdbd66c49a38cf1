//! What a desk is answered: the status and the body for each reply of the office, and for each error of a request.
#![tactic(auto)]

mod answer;
mod errors;
mod json;
mod refusals;
mod replies;

pub use answer::{Answer, Document};
pub use errors::PlainError;
pub use replies::answer_to;
