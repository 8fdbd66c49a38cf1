//! Loads over two or three sectors: a task for each sector, when each container leaves, and what stands behind what.
#![tactic(auto)]

mod admissible;
mod fault;
mod laws;
mod paths;
mod stop_faults;
mod stop_task;

pub use admissible::is_stop_admissible;
pub use fault::StopFault;
pub use laws::part_laws;
pub use paths::{is_reachable, part_of};
pub use stop_task::StopTask;
