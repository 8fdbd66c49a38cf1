/// What is summed over the containers that a prefix leaves, and on which positions they may stand.
#[derive(Clone, Copy, Debug, PartialEq, Eq)]
pub enum Extent {
    /// The hold index, on open positions.
    Reach,
    /// The hold index, on free positions.
    WideReach,
    /// The lateral difference, on free positions.
    LateralReach,
}
