//! HTTP requests from the bytes of a link, and answers as bytes.
//!
//! A [`Wire`] hears the requests of a link one after another. A request is a head as `httparse` accepts it, with at
//! most 64 fields and 8,192 bytes, and a body of the length that the head states. What a request is and why one is
//! refused are relations on the whole input, so it makes no difference in which pieces its bytes come. The caller
//! never sees those bytes, but for the method, the target and the body of a request, which are lent to it.
//!
//! [`answer`] writes an answer to the link. Once a wire is made, neither hearing nor answering takes memory.
#![tactic(auto)]

mod answers;
mod fields;
mod framing;
mod heads;
mod hearing;
mod laws;
mod limits;
mod refusals;
mod wire;

pub use answers::answer;
pub use laws::request_laws;
pub use refusals::{Refusal, WireFault};
pub use wire::{Heard, Wire};
