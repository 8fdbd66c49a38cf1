//! Loads over several sectors from the figures of a flight on each of them.
#![tactic(auto)]

mod fault;
mod laws;
mod stop_task;
mod tasks;

pub use fault::StopTrim;
pub use laws::stop_trim_laws;
pub use stop_task::stop_task_of;
