//! What is answered to a question about one task, or about one load over several sectors: an outcome and a text. The
//! questions are what its best placement is, and whether a certificate is good for it.
#![tactic(auto)]

mod any_certificate;
mod near_jobs;
mod priced_jobs;
mod reply_text;
mod stop_jobs;
mod summary_jobs;
mod tree_jobs;

pub use any_certificate::{AnyCertificate, begins_with_cuts};
pub use near_jobs::judgement;
pub use priced_jobs::{judgement_of_prices, placing_with_prices};
pub use reply_text::{
    line_of_certificate_fault, line_of_fault, line_of_stop_fault, two_word_line, word_line,
};
pub use stop_jobs::placing_over_sectors;
pub use summary_jobs::summary;
pub use task_answers::{
    GREATEST_BUDGET, GREATEST_PRICED_BUDGET, LONGEST_CERTIFICATE, LONGEST_PRICED, LONGEST_TASK,
    Outcome, Reply, USUAL_BUDGET, placement, placing_by_trees,
};
pub use tree_jobs::judgement_of_any;
