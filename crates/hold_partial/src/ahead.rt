//! What stays as it is on most positions where the next container of a prefix may go.

ghost use Rattle.std.specs.Prelude.{◌≡◌, ◌<◌, ◌≤◌, ◌+◌, ◌+ℤ◌, ◌*ℤ◌, ◌||◌, ◌==◌, ℕ, false, pos};
ghost use Rattle.hold_reach.specs.Extents.{IsBounded};
ghost use Rattle.position_set.specs.Sets.{has};

use hold_reach::Span;
use position_set::PositionSet;

/// Two open positions of a container, by number: none has a smaller moment than the first, and none a greater one than
/// the last. The span is from the one moment to the other, in ticks.
#[derive(Clone, Copy, Debug)]
pub struct Extremes {
    pub first: u8,
    pub last: u8,
    pub span: Span,
}

/// What is ahead of a prefix, wherever its next container goes. Most positions change none of it, and the reach is then
/// known without a look at each container that is left.
#[derive(Clone, Copy, Debug)]
pub struct Ahead {
    /// How many of the containers after the next one are its twins. What they add depends on where it goes.
    pub twins: u8,
    /// The positions, by number, on which the others after the next one have their least and greatest moments.
    pub ends: PositionSet,
    /// The hold index of the prefix with these moments, in ticks.
    pub reach: Span,
}

impl Ahead {
    /// What is ahead while no container after the next one is looked at.
    pub fn of_index(index: i64) -> Ahead
        ensures twins { result.twins ≡ 0 }
        ensures ends { (q : ℕ) → has result.ends q ≡ false }
        ensures low { result.reach.low ≡ index }
        ensures high { result.reach.high ≡ index }
    {
        Ahead {
            twins: 0,
            ends: PositionSet::empty(),
            reach: Span::at(index),
        }
    }

    /// What is ahead once one container more is looked at, which is no twin of the next one.
    pub fn with(self, extremes: Extremes) -> Ahead
        requires first_known { extremes.first < 64 }
        requires last_known { extremes.last < 64 }
        requires bounded { IsBounded 1000000000000 self.reach }
        requires extremes_bounded { IsBounded 1000000000000 extremes.span }
        ensures twins { result.twins ≡ self.twins }
        ensures ends { (q : ℕ) → has result.ends q
            ≡ ((has self.ends q || (q == extremes.first)) || (q == extremes.last)) }
        ensures low { result.reach.low ≡ self.reach.low +ℤ extremes.span.low }
        ensures high { result.reach.high ≡ self.reach.high +ℤ extremes.span.high }
    {
        Ahead {
            twins: self.twins,
            ends: self.ends.with(extremes.first).with(extremes.last),
            reach: self.reach.plus(extremes.span),
        }
    }

    /// What is ahead once one container more is looked at, which is a twin of the next one.
    pub fn with_twin(self) -> Ahead
        requires { self.twins < 60 }
        ensures twins { result.twins ≡ self.twins + 1 }
        ensures ends { result.ends ≡ self.ends }
        ensures reach { result.reach ≡ self.reach }
    {
        Ahead {
            twins: self.twins + 1,
            ends: self.ends,
            reach: self.reach,
        }
    }

    /// The reach ahead with this more, where each twin of the next container adds this, in ticks.
    pub fn reach_with(&self, added: Span, each_twin: Span) -> Span
        requires few { self.now.twins ≤ 60 }
        requires bounded { IsBounded 368000000000 self.now.reach }
        requires added_bounded { IsBounded 2000000000 added }
        requires twin_bounded { IsBounded 2000000000 each_twin }
        ensures low { result.low ≡ (self.now.reach.low +ℤ added.low) +ℤ pos self.now.twins *ℤ each_twin.low }
        ensures high { result.high ≡ (self.now.reach.high +ℤ added.high) +ℤ pos self.now.twins *ℤ each_twin.high }
        ensures still_bounded { IsBounded 490000000000 result }
    {
        self.reach.plus(added).plus(each_twin.times(self.twins))
    }
}
