//! Several desks over one office: each desk works at a door of its own, in a thread of its own, and whatever comes in at
//! the doors, every answer is that of the office at its place in one history.
//!
//! [`attend`] serves the links of one door one after another, over any counter. [`serve_doors`] gives each door a desk,
//! and has all desks work at once, until their doors are closed.
#![tactic(auto)]

mod attending;
mod bays;
mod ending;
mod office_run;
mod serving;

pub use attending::attend;
pub use ending::DoorsEnd;
pub use office_run::OfficeRun;
pub use serving::{DoorsRun, serve_doors};
