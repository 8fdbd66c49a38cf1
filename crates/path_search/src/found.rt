//! What a best-first search finds.

use certificate::Claim;
use hold_limits::Path;

/// The best path, or that none is admissible, with what the search did.
#[derive(Debug, Drop)]
pub struct Found {
    pub claim: Claim,
    /// The prefixes that leave containers and at which the search turned back, in path order.
    pub cuts: Vec<Path>,
    /// How many prefixes the search looked at.
    pub expanded: u32,
}
