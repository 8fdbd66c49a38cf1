//! The rules of a hold that a placement can break.

ghost use Rattle.std.specs.Prelude.{◌≡◌};
ghost use Rattle.hold_reach.specs.Rules.{has_kind_at};

use hold_limits::{Hold, Item};
use thiserror::Error;

/// The first rule of a hold that a placement breaks. Positions are given by their numbers, and limits by their
/// places in the hold's lists, both counted from 0.
#[derive(Clone, Copy, Debug, PartialEq, Eq, Error)]
pub enum RuleBroken {
    /// No position has the number.
    #[error("no position has this number")]
    Unknown,
    /// A container stands on the position.
    #[error("a container stands on the position")]
    Taken,
    /// The position accepts no containers of the kind.
    #[error("the position accepts no containers of this kind")]
    NoFit,
    /// The position accepts the kind, but not so heavy a container.
    #[error("the container is too heavy for the position")]
    TooHeavy,
    /// This used position, the least of them, excludes it.
    #[error("used position {0} excludes the position")]
    Excluded(u8),
    /// The load of this combined limit would be too great.
    #[error("the load of combined limit {0} would be too great")]
    Combined(usize),
    /// The load of this cumulative limit would be too great.
    #[error("the load of cumulative limit {0} would be too great")]
    Cumulative(usize),
}

/// Whether the number is that of a position which accepts containers of this one's kind.
pub fn accepts_kind_at(hold: &Hold, item: &Item, number: u8) -> bool
    ensures { result ≡ has_kind_at hold.now item.now number }
{
    match hold.positions().get(number as usize) {
        Some(position) => position.accepts_kind(item),
        None => false,
    }
}
