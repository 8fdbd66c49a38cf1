//! What is answered.

use hold_limits::Path;

/// An answer: what it says, and the text that is to be printed.
#[derive(Debug, Drop)]
pub struct Reply {
    pub outcome: Outcome,
    pub text: Vec<u8>,
}

/// A placement by trees: the answer, and its path where it is the best plan.
#[derive(Debug, Drop)]
pub struct TreePlacing {
    pub reply: Reply,
    pub path: Option<Path>,
}

/// What a reply says.
#[derive(Clone, Copy, Debug, PartialEq, Eq)]
pub enum Outcome {
    /// What was asked for: the best plan, that a certificate is good, or a summary.
    Done,
    /// The arguments are invalid.
    Usage,
    /// A file is too long, or its bytes spell no lawful task, no certificate, no lawful load over several sectors or no
    /// message; or the files state no flight in transit.
    BadInput,
    /// No placement is admissible.
    NothingFits,
    /// More prefixes are near than the budget.
    OverBudget,
    /// So many looks do not decide which placement is the best, and more prefixes are near than the budget that comes
    /// of them.
    Undecided,
    /// The certificate is not good.
    Rejected,
}
