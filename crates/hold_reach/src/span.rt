//! Spans of hold indices, in ticks, and of lateral differences, in kilograms.

ghost use Rattle.std.specs.Prelude.{◌≡◌, ◌↔◌, ◌≤◌, ◌≤ℤ◌, ◌+ℤ◌, ◌-ℤ◌, ◌*ℤ◌, pos, IsTrue};
ghost use Rattle.hold_reach.specs.Extents.{IsBounded};
ghost use Rattle.hold_reach.specs.Reach.{HaveCommonNumber};

use mass_units::Kg;

/// The numbers from `low` to `high`, both of them among them.
#[derive(Clone, Copy, Debug, PartialEq, Eq)]
pub struct Span {
    pub low: i64,
    pub high: i64,
}

impl Span {
    /// The span of one number alone.
    pub fn at(number: i64) -> Span
        ensures low { result.low ≡ number }
        ensures high { result.high ≡ number }
    {
        Span {
            low: number,
            high: number,
        }
    }

    /// The differences of at most a mass either way, in kilograms.
    pub fn around_zero(most: Kg) -> Span
        ensures low { result.low ≡ pos 0 -ℤ pos most.0 }
        ensures high { result.high ≡ pos most.0 }
    {
        let most = i64::from(most.0);
        Span {
            low: -most,
            high: most,
        }
    }

    /// The span from the sum of the lows to the sum of the highs.
    pub fn plus(self, other: Span) -> Span
        requires bounded { IsBounded 10000000000000000 self }
        requires other_bounded { IsBounded 10000000000000000 other }
        ensures low { result.low ≡ self.low +ℤ other.low }
        ensures high { result.high ≡ self.high +ℤ other.high }
    {
        Span {
            low: self.low + other.low,
            high: self.high + other.high,
        }
    }

    /// The span from so many times the low to so many times the high.
    pub fn times(self, count: u8) -> Span
        requires few { count ≤ 60 }
        requires bounded { IsBounded 2000000000 self }
        ensures low { result.low ≡ pos count *ℤ self.low }
        ensures high { result.high ≡ pos count *ℤ self.high }
        ensures still_bounded { IsBounded 120000000000 result }
    {
        let count = i64::from(count);
        Span {
            low: count * self.low,
            high: count * self.high,
        }
    }

    /// Whether it begins before both spans end.
    fn begins_within(self, one: Span, other: Span) -> bool
        ensures { IsTrue result ↔ ((self.low ≤ℤ one.high) × (self.low ≤ℤ other.high)) }
    {
        self.low <= one.high && self.low <= other.high
    }

    /// Whether some number is in both spans.
    pub fn meets(self, other: Span) -> bool
        ensures { IsTrue result ↔ HaveCommonNumber self.low self.high other.low other.high }
    {
        self.begins_within(self, other) && other.begins_within(self, other)
    }
}
