//! Whether a certificate of trees is good, and what a good one proves: that its path is the best, or that no path is
//! admissible.
#![tactic(auto)]

mod checks;
mod claim;
mod evidence;
mod laws;
mod operations;
mod proven;
mod rejection;
mod siblings;
mod trees;
mod walk;

pub use checks::check_trees;
pub use laws::tree_certificate_laws;
pub use proven::{NoPlanByTrees, ProvenByTrees, no_plan_by_trees, proven_by_trees};
pub use rejection::TreeRejection;
