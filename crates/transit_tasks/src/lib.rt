//! Tasks around what stays aboard: what came in for a later station keeps its place, and the offer is placed around it.
#![tactic(auto)]

mod around;
mod fault;
mod places;
mod staying;

pub use fault::TransitFault;
pub use staying::with_staying;
