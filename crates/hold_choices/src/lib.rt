//! For each container of a task the positions that it may have, and how such a choice is narrowed without loss of a
//! placement: by what other containers leave, and by the remainder that all its hold indices have.
#![tactic(auto)]

mod choices;
mod conflicts;
mod laws;
mod missed;
mod narrowing;
mod taken;

pub use choices::Choices;
pub use conflicts::Conflicts;
pub use laws::narrowing_laws;
pub use missed::is_missed;
pub use narrowing::{narrowed, narrowed_once};
