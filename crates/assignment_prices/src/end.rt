//! The ends of a span of hold indices.

ghost use Rattle.std.specs.Prelude.{◌≡◌, ◌↔◌, ◌≤◌, ◌≤ℤ◌, IsTrue, unsigned_abs};
ghost use Rattle.assignment_prices.specs.Steps.{counted_from};

/// The end of a span that prices are for.
#[derive(Clone, Copy, Debug, PartialEq, Eq)]
pub enum End {
    Low,
    High,
}

impl End {
    /// The number counted up from the low end, or down from the high one.
    pub fn count(self, number: &i64) -> i64
        requires { unsigned_abs number.now ≤ 10000000000000 }
        ensures { result ≡ counted_from self number.now }
    {
        match self {
            End::Low => *number,
            End::High => -*number,
        }
    }

    /// Whether the first number is at least as near to this end as the second.
    pub fn is_nearer(self, first: i64, second: i64) -> bool
        ensures { IsTrue result ↔ counted_from self first ≤ℤ counted_from self second }
    {
        match self {
            End::Low => first <= second,
            End::High => first >= second,
        }
    }
}
