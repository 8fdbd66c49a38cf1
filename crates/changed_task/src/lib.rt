//! Loading tasks with one thing changed: a limit, an end of the window, or the offer. They answer such questions as
//! "would there be a plan without this limit?".
#![tactic(auto)]

mod change;
mod changing;
mod holds;
mod laws;

pub use change::Change;
pub use changing::changed;
pub use laws::change_laws;
