//! The commands about one task, about one load over several sectors, or about one flight in transit: from their arguments
//! to the reply that is printed and the exit status.
#![tactic(auto)]

mod arguments;
mod ending;
mod files;
mod first_words;
mod jobs;
mod printing;
mod transit_files;

pub use arguments::{Command, are_plain, command_of};
pub use ending::Stop;
pub use first_words::arguments_from;
pub use plan_answers::{Outcome, two_word_line};
pub use printing::{exit_status, print, run_command};
