//! A load over several sectors as what a best-first search goes through.
#![tactic(auto)]

mod laws;

pub use laws::stop_world_laws;
