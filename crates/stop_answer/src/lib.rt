//! The text of an answer over several sectors: where each container goes, and the take-off index of each sector.
#![tactic(auto)]

mod answer_text;

pub use answer_text::write_stop_answer;
