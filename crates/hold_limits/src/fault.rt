//! The faults of holds and of tasks.

use thiserror::Error;

/// What is wrong with a hold. A number is the place of the wrong part in its list, counted from 0.
#[derive(Clone, Copy, Debug, PartialEq, Eq, Error)]
pub enum HoldFault {
    /// No position, or over 64. It carries their number.
    #[error("a hold has 1 to 64 positions, not {0}")]
    Positions(usize),
    /// A position with the name of an earlier one.
    #[error("position {0} has the name of an earlier one")]
    SameName(usize),
    /// A position's influence is over 100,000 ticks per kilogram, to either side.
    #[error("the influence of position {0} is over 100000 ticks per kilogram")]
    Influence(usize),
    /// A bulk position with fits; or another position without any, with over 16, or with a kind twice.
    #[error("position {0} is bulk and accepts kinds, or it accepts none, over 16 or one twice")]
    Fits(usize),
    /// A position accepts a greatest mass of 0 or over 20,000 kg.
    #[error("a greatest mass at position {0} is 0 or over 20000 kg")]
    FitMass(usize),
    /// Over 256 excluding pairs, 64 combined or 128 cumulative limits.
    #[error("over 256 excluding pairs, 64 combined or 128 cumulative limits")]
    TooMany,
    /// An excluding pair of equal or unknown positions, with a bulk position, or given before.
    #[error("excluding pair {0} has equal, unknown or bulk positions, or was given before")]
    Exclude(usize),
    /// A combined limit without positions, with positions that do not rise strictly, or an unknown one.
    #[error("combined limit {0} has no positions, an unknown one, or some that do not rise")]
    Combined(usize),
    /// A cumulative limit at an unknown position.
    #[error("cumulative limit {0} is at an unknown position")]
    Cumulative(usize),
    /// A side of an unknown position, or of one whose number is not greater than that of the side before it.
    #[error("side {0} is of an unknown position, or of one that is not after that of the side before it")]
    Side(usize),
}

/// What is wrong with a task over a lawful hold. A number is the place of the wrong part in its list, counted from
/// 0.
#[derive(Clone, Copy, Debug, PartialEq, Eq, Error)]
pub enum TaskFault {
    /// Over 60 containers.
    #[error("over 60 containers")]
    TooManyItems,
    /// A container with the identity of an earlier one.
    #[error("container {0} has the identity of an earlier one")]
    DuplicateId(usize),
    /// A container over 20,000 kg.
    #[error("container {0} is over 20000 kg")]
    ItemTooHeavy(usize),
    /// A loose load on a position that is not bulk.
    #[error("loose load {0} is on a position that is not bulk")]
    LooseNotBulk(usize),
    /// A second loose load on a position.
    #[error("loose load {0} is on the position of an earlier one")]
    LooseTwice(usize),
    /// A loose load over 20,000 kg.
    #[error("loose load {0} is over 20000 kg")]
    LooseTooHeavy(usize),
    /// An index beyond 1,000,000,000 ticks: 1 base, 2 and 3 the window, 4 and 5 the ideal band; 6 where the
    /// ends of the band are crossed.
    #[error("index {0} of base, window and ideal band is out of range, or 6 for crossed ends of the band")]
    Range(usize),
}
