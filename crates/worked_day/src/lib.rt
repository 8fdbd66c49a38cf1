//! The worked day, for the tests of several crates: the aircraft `DAIAB`, its flight XX210 on the 12th, the documents of that
//! flight, and what is asked and answered about it.
#![tactic(auto)]

mod craft;
mod documents;
mod flights;
mod requests;

pub use craft::{DAIAB, aircraft, fleet};
pub use documents::{CPM, LDM, LOADSHEET, ROW};
pub use flights::{key, leg};
pub use requests::{FULL, MORNING, MORNING_ANSWERS, NO_FLIGHT, OTHER_FLIGHT, PLAN};
