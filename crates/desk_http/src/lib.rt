//! The office over one connection: the bytes of requests over HTTP in, the bytes of their answers out.
//!
//! [`serve_connection`] hears the requests of a link one after another, asks the office at a [`Counter`], and writes the
//! answers. Whatever comes, the link is served: its answers are those that the definitions give for the requests that
//! its bytes are, up to its end, or up to where a read or a write failed.
#![tactic(auto)]

mod connection;
mod ending;
mod receiving;
mod tools;

pub use connection::serve_connection;
pub use desk_service::{Counter, Full, Solo};
pub use ending::ConnEnd;
pub use tools::Tools;
