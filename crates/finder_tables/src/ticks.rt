//! Ticks of the hold index that are of interest.

/// The end from which hold indices are counted.
#[derive(Clone, Copy, Debug, PartialEq, Eq)]
pub enum End {
    Low,
    High,
}

impl End {
    /// A number, counted from this end.
    pub fn counted(self, number: i64) -> i64 {
        match self {
            End::Low => number,
            End::High => number.saturating_neg(),
        }
    }
}

/// The ticks from the low one to the high one. There is none where the high one is below the low one.
#[derive(Clone, Copy, Debug)]
pub struct TickSpan {
    pub low: i64,
    pub high: i64,
}

impl TickSpan {
    /// Whether there is no tick.
    pub fn is_empty(self) -> bool {
        self.high < self.low
    }

    /// The ticks at most so far from these.
    pub fn wider(self, distance: i64) -> TickSpan {
        TickSpan {
            low: self.low.saturating_sub(distance),
            high: self.high.saturating_add(distance),
        }
    }

    /// How far an index lies outside: below zero where it lies within.
    pub fn beyond(self, index: i64) -> i64 {
        self.low
            .saturating_sub(index)
            .max(index.saturating_sub(self.high))
    }

    /// How far an index lies from these ticks; 0 where it is one.
    pub fn distance_to(self, index: i64) -> i64 {
        self.beyond(index).max(0)
    }

    /// The last of the ticks, counted from an end.
    pub fn goal(self, end: End) -> i64 {
        match end {
            End::Low => self.high,
            End::High => self.low.saturating_neg(),
        }
    }
}
