//! The limits of a hold on the mass of several positions together.

ghost use Rattle.std.specs.Prelude.{◌≡◌};
ghost use Rattle.hold_parts.specs.Limits.{is_listed, is_limited, most_of};

use crate::parts::{Combined, Cumulative};

/// A combined or a cumulative limit.
#[derive(Clone, Copy)]
pub enum Limit<'a> {
    Listed(&'a Combined),
    Counted(&'a Cumulative),
}

fn is_among(numbers: &[u8], number: u8) -> bool
    ensures { result ≡ is_listed numbers.now number }
{
    numbers.iter().any(|listed| *listed == number)
}

impl Limit<'_> {
    /// Whether the mass on the position with this number counts.
    pub fn covers(&self, number: u8) -> bool
        ensures { result ≡ is_limited self.now number }
    {
        match self {
            Limit::Listed(limit) => is_among(limit.places.as_slice(), number),
            Limit::Counted(limit) if limit.forward => number <= limit.place,
            Limit::Counted(limit) => limit.place <= number,
        }
    }

    /// The greatest mass that its positions may carry together, in kilograms.
    pub fn most(&self) -> u32
        ensures { result ≡ most_of self.now }
    {
        match self {
            Limit::Listed(limit) => limit.most.0,
            Limit::Counted(limit) => limit.most.0,
        }
    }
}
