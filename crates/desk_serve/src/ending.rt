//! How the work at doors ends.

/// How the work at all doors ended.
#[derive(Clone, Copy, Debug, PartialEq, Eq)]
pub enum DoorsEnd {
    /// Each door was closed.
    Closed,
    /// Some door failed. The desks at the others went on until theirs were closed or failed.
    Failed,
}
