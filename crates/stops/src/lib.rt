//! Loads over several sectors, whole: the load with what leaves at each stop, the search for its best placement and
//! the text of the answer, its own text, and the load that the figures of a flight on each sector make.
#![tactic(auto)]

pub use stop_answer::write_stop_answer;
pub use stop_placer::{StopAnswer, place_stops};
pub use stop_tasks::{StopFault, StopTask, is_stop_admissible, part_laws};
pub use stop_text::{StopTextFault, read_stops, stop_text_laws, write_stops};
pub use stop_trim::{StopTrim, stop_task_of, stop_trim_laws};
