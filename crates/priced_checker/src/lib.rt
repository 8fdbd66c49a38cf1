//! Whether a certificate with prices is good, and what a good one proves: that its path is the best, or that no path is
//! admissible.
#![tactic(auto)]

mod checks;
mod cuts;
mod laws;
mod reject;

pub use checks::check_priced;
pub use laws::priced_certificate_laws;
pub use reject::PricedReject;
