//! What is answered to the question what the best placement of a task is: an outcome and a text. Two searches are asked:
//! the best-first search alone, or the search by trees before it.
#![tactic(auto)]

mod best_answers;
mod limits;
mod near_jobs;
mod reply;
mod reply_text;
mod spelled;
mod tree_jobs;

pub use best_answers::{BestAnswer, best_answer, best_answer_laws};
pub use limits::{
    GREATEST_BUDGET, GREATEST_PRICED_BUDGET, LONGEST_ANSWER, LONGEST_CERTIFICATE, LONGEST_PRICED,
    LONGEST_TASK, USUAL_BUDGET,
};
pub use near_jobs::{has_good_evidence, placement, read_names, reply_to};
pub use reply::{Outcome, Reply, TreePlacing};
pub use reply_text::push_number_line;
pub use tree_jobs::{find_by_trees, placing_by_trees};
