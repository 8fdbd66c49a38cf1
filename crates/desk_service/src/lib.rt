//! The service of a desk: what it asks of an office for each request over HTTP, and what it answers.
//!
//! A [`Counter`] is where a desk asks; [`Solo`] is one whose desk has an office for itself, and a desk of a room over a
//! [`Bench`] is one of several that have an office together. [`answer_asked`] answers what one
//! request asks. The definitions speak of exchanges: a request, the entries that it made with their places in the history of
//! the office, and its answer. An answer is read at the places of its entries, so it is the same in every history that
//! continues that one, whatever other desks ask.
#![tactic(auto)]

mod answering;
mod bench;
mod counter;
mod laws;
mod searches;
mod solo;

pub use answering::answer_asked;
pub use bench::{Bench, Opened};
pub use counter::Counter;
pub use desk_lock::Full;
pub use laws::service_laws;
pub use solo::Solo;
