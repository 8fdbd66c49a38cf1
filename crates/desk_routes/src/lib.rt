//! Routes of the desk: which request the path of a target asks for, of which flight and edition.
#![tactic(auto)]

mod parts;
mod route;
mod router;

pub use parts::{edition_in, key_in, read_edition};
pub use route::Route;
pub use router::DeskRouter;
