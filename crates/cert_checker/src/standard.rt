//! What the prefixes of a task are compared with in a check: the claimed path, and the cuts.

use hold_limits::Path;

/// The claimed path, and how far its take-off index lies from the ideal band, in ticks. `standard_of` makes it of a
/// claim.
#[derive(Clone, Copy)]
pub struct Standard<'a> {
    pub path: &'a Path,
    pub distance: u64,
}

/// The claimed path, where there is one, and the cuts.
#[derive_where(Clone, Copy)]
pub struct Evidence<'a, C> {
    pub standard: Option<Standard<'a>>,
    pub cuts: &'a [C],
}
