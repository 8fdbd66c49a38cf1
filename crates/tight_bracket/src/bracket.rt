//! Between what and what the tight reach of a placement lies.

ghost use Rattle.std.specs.Prelude.{◌≡◌, ◌+◌, ◌<◌, ◌≤◌, ◌≤ℤ◌, ◌⊎◌, ◌++◌, ◌∷◌, [], ℤ, IfSome, IsTrue, length};
ghost use Rattle.hold_limits.specs.Placement.{IsSound};
ghost use Rattle.hold_limits.specs.Twins.{IsRising};
ghost use Rattle.hold_partial.specs.Placing.{placing_of};
ghost use Rattle.hold_reach.specs.Choices.{IsWithin};
ghost use Rattle.hold_reach.specs.Extents.{IsBounded};
ghost use Rattle.assignment_prices.specs.declared.end.End.TheVariants.{Low, High};
ghost use Rattle.assignment_prices.specs.TightReach.{AllowsTightly};
ghost use Rattle.tight_reach.specs.Candidates.{AreCandidates, AreInfluences};
ghost use Rattle.tight_bracket.specs.Brackets.{IsDraftFor};

use assignment_draft::Draft;
use assignment_prices::End;
use hold_limits::{Path, Task, hold_index_of};
use hold_partial::Partial;
use hold_reach::Span;
use std::marker::Model;
use tight_reach::{Candidates, candidates_of, influences_of};

/// Drafts for both ends of the tight reach of a placement. What they tell is quicker to come by than the tight reach: a span
/// around it, and most often a span within it.
#[derive(Drop)]
pub struct Bracket<'a> {
    task: &'a Task,
    prefix: Path,
    /// The hold index of the placement, in ticks.
    index: i64,
    low: Draft,
    high: Draft,
}

impl<'a> Model for Bracket<'a> {
    ghost use Rattle.hold_partial.specs.Placing.{Placing, placing_of};

    ghost Value = { Placing };

    ghost view = { λ b. placing_of b.task.now b.prefix.items };

    ghost use Rattle.tight_bracket.specs.Brackets.{AreDrafts};

    ghost invariant = { λ b. AreDrafts b.task.now b.prefix.items b.index b.low b.high };
}

/// The numbers as a path.
fn path_of(prefix: &[u8]) -> Path
    requires { length prefix.now ≤ 60 }
    ensures { result.items ≡ prefix.now }
{
    match Path::try_from(prefix) {
        Ok(path) => path,
        Err(_) => unreachable!(),
    }
}

/// The span of the two numbers.
fn span_of(one: i64, other: i64) -> Span
    ensures low { (result.low ≡ one) ⊎ (result.low ≡ other) }
    ensures high { (result.high ≡ one) ⊎ (result.high ≡ other) }
    ensures rising { result.low ≤ℤ result.high }
{
    let (low, high) = if one <= other {
        (one, other)
    } else {
        (other, one)
    };
    Span { low, high }
}

/// The draft for that end of what the placement leaves, from nothing.
fn draft_from_nothing(partial: &Partial<'_>, candidates: &Candidates, end: End) -> Draft
    requires { AreCandidates partial.now.task partial.now.prefix candidates.now.items }
    ensures { IsDraftFor partial.now.task partial.now.prefix end result }
{
    let influences = influences_of(partial.task().hold(), end);
    Draft::new(candidates.as_slice(), influences.as_slice())
}

/// The draft for that end of what the placement leaves, from the other draft where its first candidate is placed now.
#[inline(always)]
fn draft_after(draft: &Draft, partial: &Partial<'_>, candidates: &Candidates, end: End) -> Draft
    requires candidates { AreCandidates partial.now.task partial.now.prefix candidates.now.items }
    requires influences { AreInfluences partial.now.task.hold end draft.now.influences }
    ensures { IsDraftFor partial.now.task partial.now.prefix end result }
{
    match draft.after_first(candidates.as_slice()) {
        Some(draft) => draft,
        None => draft_from_nothing(partial, candidates, end),
    }
}

impl<'a> Bracket<'a> {
    /// The bracket of the placement with these drafts.
    #[inline(always)]
    fn with(partial: &Partial<'a>, low: Draft, high: Draft) -> Bracket<'a>
        requires low { IsDraftFor partial.now.task partial.now.prefix Low low }
        requires high { IsDraftFor partial.now.task partial.now.prefix High high }
        ensures { result ≡ partial.now }
    {
        let task = partial.task();
        Bracket {
            task,
            prefix: path_of(partial.prefix()),
            index: hold_index_of(task, partial.prefix()).0,
            low,
            high,
        }
    }

    /// The bracket of the placement, from nothing.
    pub fn of(partial: &Partial<'a>) -> Bracket<'a>
        ensures { result ≡ partial.now }
    {
        let candidates = candidates_of(partial);
        let low = draft_from_nothing(partial, &candidates, End::Low);
        let high = draft_from_nothing(partial, &candidates, End::High);
        Bracket::with(partial, low, high)
    }

    /// The bracket of another placement of the task: in a few steps from this one where that has one container more, else
    /// from nothing.
    pub fn followed_by(&self, partial: &Partial<'a>) -> Bracket<'a>
        requires { partial.now.task ≡ self.now.task }
        ensures { result ≡ partial.now }
    {
        let candidates = candidates_of(partial);
        let low = draft_after(&self.low, partial, &candidates, End::Low);
        let high = draft_after(&self.high, partial, &candidates, End::High);
        Bracket::with(partial, low, high)
    }

    /// Whether the numbers are those of this placement with one more.
    pub fn precedes(&self, prefix: &[u8]) -> bool
        ensures { IsTrue result → length prefix.now ≡ length self.now.prefix + 1 }
    {
        match prefix.split_last() {
            Some((_, front)) => front == self.prefix.as_slice(),
            None => false,
        }
    }

    /// A span of hold indices, in ticks, in which the tight reach lies. Where there is no way it may be one from a greater
    /// to a lesser number.
    pub fn around(&self) -> Span
        ensures around { (index : ℤ) → AllowsTightly self.now.task self.now.prefix index → IsWithin (result.low, result.high) index }
        ensures bounded { IsBounded 10000000000000000 result }
    {
        Span {
            low: self.index + self.low.least(),
            high: self.index - self.high.least(),
        }
    }

    /// A span of hold indices, in ticks, that lies in the tight reach, if two ways are known.
    pub fn within(&self) -> Option<Span>
        ensures low { IfSome result (λ span. AllowsTightly self.now.task self.now.prefix span.low) }
        ensures high { IfSome result (λ span. AllowsTightly self.now.task self.now.prefix span.high) }
        ensures rising { IfSome result (λ span. span.low ≤ℤ span.high) }
        ensures bounded { IfSome result (IsBounded 10000000000000000) }
    {
        let low = self.low.way_cost()?;
        let high = self.high.way_cost()?;
        Some(span_of(self.index + low, self.index - high))
    }

    /// A span of hold indices, in ticks, in which the tight reach lies of the placement with the next container on that
    /// position.
    pub fn around_on(&self, number: u8) -> Span
        requires known { number < 64 }
        requires short { length self.now.prefix < length self.now.task.items }
        ensures around { IsSound self.now.task (self.now.prefix ++ number ∷ []) → IsRising self.now.task (self.now.prefix ++ number ∷ [])
            → (index : ℤ) → AllowsTightly self.now.task (self.now.prefix ++ number ∷ []) index → IsWithin (result.low, result.high) index }
        ensures bounded { IsBounded 10000000000000000 result }
    {
        Span {
            low: self.index + self.low.least_on(number),
            high: self.index - self.high.least_on(number),
        }
    }
}
