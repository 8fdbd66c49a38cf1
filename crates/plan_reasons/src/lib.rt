//! Why a task has no plan: the containers that no position takes, the kinds for which there are too few positions, and
//! the limits without which there would be a plan, each with the least change that gives one.
//!
//! The judge of every question is the search of the command `best`: that there is a plan is shown by one, that there is
//! none by a certificate that was checked. What so many looks do not decide is counted.
#![tactic(auto)]

mod decision;
mod finding;
mod least_step;
mod limit;
mod limit_text;
mod reasons;
mod reply;
mod text;
mod unfit;

pub use decision::{Decision, decide};
pub use finding::{Finding, Least, TriedLimit};
pub use limit::TaskLimit;
pub use reasons::{Reasons, Why, ask_why};
pub use reply::explanation;
pub use text::write_why;
