//! Where the next container of a prefix may stand, and how near the ideal a load can still come with it there.

ghost use Rattle.std.specs.Prelude.{◌≡◌, ◌<◌, ◌≤◌, ◌++◌, ◌∷◌, [], ℕ, false, Some, IfSome, length, slice_get, unsigned_abs};
ghost use Rattle.hold_parts.specs.declared.parts.Item.{Item};
ghost use Rattle.hold_limits.specs.BranchOrder.{ordered};
ghost use Rattle.hold_limits.specs.Faults.{IsLawful};
ghost use Rattle.hold_limits.specs.Placement.{IsSound, placed_moment};
ghost use Rattle.hold_reach.specs.Extents.{IsBounded};
ghost use Rattle.hold_reach.specs.Reach.{wide_bound};
ghost use Rattle.position_set.specs.Sets.{has};
ghost use Rattle.stop_partial.specs.Next.{AreNext, AreNextMoments, HoldsNext};

use hold_limits::Task;
use hold_partial::Partial;
use hold_reach::{Span, gap_to_ideal};
use position_set::PositionSet;

/// The positions on which the next container of a prefix may stand, and how far the hold index can reach without it.
#[derive(Clone, Copy, Debug)]
pub struct NextPositions {
    /// The positions, by number.
    pub fitting: PositionSet,
    /// The hold indices in wide reach with the next container on any of the positions, each less its moment there, are
    /// in this span, in ticks.
    pub others: Span,
}

/// The moment of the container at this rank of branch order on the position, in ticks.
fn moment_on(task: &Task, rank: usize, number: u8) -> i64
    requires { rank < length task.now.items }
    ensures value { (item : Item) → slice_get (ordered task.now.items) rank ≡ Some item
        → result ≡ placed_moment task.now.hold (item, number) }
    ensures bounded { unsigned_abs result ≤ 2000000000 }
    ensures lawful { IsLawful task.now }
{
    i64::from(task.at_rank(rank).mass.0) * i64::from(task.hold().influence_at(number))
}

/// The span of the next container's moments with that on one position more, on which it may stand.
pub fn moments_with(partial: &Partial<'_>, moments: Option<Span>, number: u8) -> Span
    requires short { length partial.now.prefix < length partial.now.task.items }
    requires moments { IfSome moments (AreNextMoments partial.now.task partial.now.prefix) }
    requires fits { IsSound partial.now.task (partial.now.prefix ++ number ∷ []) }
    ensures { AreNextMoments partial.now.task partial.now.prefix result }
{
    let moment = moment_on(partial.task(), partial.prefix().len(), number);
    match moments {
        Some(span) => Span {
            low: span.low.min(moment),
            high: span.high.max(moment),
        },
        None => Span::at(moment),
    }
}

/// The span that is in wide reach, less the least of these moments at its low end and the greatest at its high end. The
/// wide reach with the next container on a position is no wider than that and its moment there.
pub fn others_around(partial: &Partial<'_>, moments: Span) -> Span
    requires { AreNextMoments partial.now.task partial.now.prefix moments }
    ensures holds { HoldsNext partial.now.task partial.now.prefix result }
    ensures bounded { IsBounded 1000000000000 result }
{
    let _lawful = partial.task();
    match partial.wide_reach() {
        Some((low, high)) => Span {
            low: low.0 - moments.low,
            high: high.0 - moments.high,
        },
        None => Span::at(0),
    }
}

impl NextPositions {
    /// No positions.
    pub fn none() -> NextPositions
        ensures none { (q : ℕ) → has result.fitting q ≡ false }
        ensures bounded { IsBounded 0 result.others }
    {
        NextPositions {
            fitting: PositionSet::empty(),
            others: Span::at(0),
        }
    }

    /// How near the ideal the load can come at best with the next container of the prefix on the position, in ticks.
    /// The wide bound of the longer prefix may be greater.
    pub fn least_bound_on(&self, task: &Task, prefix: &[u8], number: u8) -> u64
        requires next { AreNext task.now prefix.now self.now }
        requires fits { IsSound task.now (prefix.now ++ number ∷ []) }
        ensures { IfSome (wide_bound task.now (prefix.now ++ number ∷ [])) (λ b. result ≤ b) }
    {
        let moment = moment_on(task, prefix.len(), number);
        gap_to_ideal(task, self.others.plus(Span::at(moment)))
    }
}
