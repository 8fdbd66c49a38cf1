//! The containers that a placement leaves, as an assignment takes them.

ghost use Rattle.std.specs.Prelude.{◌≡◌, length};
ghost use Rattle.hold_limits.specs.Faults.{IsLawful};
ghost use Rattle.hold_reach.specs.Reach.{remaining};
ghost use Rattle.tight_reach.specs.Candidates.{AreCandidates, AreInfluences};

use arrayvec::ArrayVec;
use assignment::Candidate;
use assignment_prices::End;
use hold_limits::Hold;
use hold_partial::Partial;

/// Containers that are to get a position, in branch order.
pub type Candidates = ArrayVec<Candidate, 60>;

/// Influences of positions, in ticks for each kilogram, counted from one end.
pub type Influences = ArrayVec<i64, 64>;

/// The containers that the placement leaves, with the positions that are open for them.
pub fn candidates_of(partial: &Partial<'_>) -> Candidates
    ensures candidates { AreCandidates partial.now.task partial.now.prefix result.items }
    ensures count { length result.items ≡ length (remaining partial.now.task partial.now.prefix) }
    ensures lawful { IsLawful partial.now.task }
{
    let task = partial.task();
    let placed = partial.prefix().len();
    let open_sets = partial.open_sets();
    let mut candidates = Candidates::new();
    for rank in placed..task.items().len() {
        candidates.push(Candidate {
            mass: task.at_rank(rank).mass.0,
            open: open_sets[rank - placed],
        });
    }
    candidates
}

/// The influences of the positions of a hold, counted from that end.
pub fn influences_of(hold: &Hold, end: End) -> Influences
    ensures { AreInfluences hold.now end result.items }
{
    let mut influences = Influences::new();
    for number in 0..hold.position_count() {
        influences.push(end.count(&i64::from(hold.influence_at(number))));
    }
    influences
}
