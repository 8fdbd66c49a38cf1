//! Whether a certificate is good, and what a good one proves: that its path is the best, or that no path is
//! admissible.
//!
//! The steps of a check are public too: whoever judges certificates whose cuts carry more (`Cut`) shares the test of the
//! claim, the order of the cuts and the walk through the prefixes that they leave.
#![tactic(auto)]

mod checks;
mod claim;
mod cuts;
mod evidence;
mod laws;
mod no_plan;
mod proven;
mod reject;
mod standard;
mod walk;

pub use checks::check;
pub use claim::{claims_path, is_at_least, standard_of};
pub use cuts::{cut_bound, is_in_order};
pub use evidence::Method;
pub use laws::certificate_laws;
pub use no_plan::{NoPlan, NoPlanBy};
pub use proven::{Proven, ProvenBy};
pub use reject::Reject;
pub use standard::{Evidence, Standard};
pub use walk::check_prefixes;
