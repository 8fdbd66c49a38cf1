//! The siblings of a certificate against the smaller neighbours of its path that need a tree.

ghost use Rattle.std.specs.Prelude.{◌≡◌, ◌↔◌, ◌<◌, ◌≤◌, ◌+◌, IfOk, IfErr, IsTrue, false, Some, length, slice_get};
ghost use Rattle.price_trees.specs.Narrowing.{full};
ghost use Rattle.tree_checker.specs.GoodTrees.{neighbours, AreNeeded};
ghost use Rattle.tree_checker.specs.Steps.{IsReady, NeedsTree, IsIdle, places, neighbours_from, LeadsTo, SiblingIsRefused};

use crate::evidence::{TreeEvidence, opened};
use crate::rejection::TreeRejection;
use crate::trees::begun;
use hold_choices::Choices;
use tree_certificate::Sibling;

/// Whether the sibling at this place is this neighbour.
fn is_listed_at(siblings: &[Sibling], at: usize, rank: usize, position: u8) -> bool
    ensures is { IsTrue result ↔ (slice_get (places siblings.now) at ≡ Some (rank, position)) }
    ensures inside { IsTrue result → at < length siblings.now }
{
    match siblings.get(at) {
        Some(sibling) => usize::from(sibling.rank) == rank && sibling.position == position,
        None => false,
    }
}

/// Whether the position precedes the path's at this rank, and needs a tree there.
fn is_needed(
    evidence: &TreeEvidence<'_>,
    full_choice: &Choices,
    path: &[u8],
    rank: usize,
    position: u8,
) -> bool
    requires ready { IsReady evidence.now }
    requires full { full_choice.now ≡ full evidence.now.task.now }
    requires few { length path.now ≤ 60 }
    requires within { rank < length path.now }
    ensures needed { IsTrue result → NeedsTree evidence.now.task.now path.now (rank, position) }
    ensures idle { result ≡ false → IsIdle evidence.now.task.now path.now (rank, position) }
{
    if path[rank] <= position {
        return false;
    }
    opened(evidence, begun(full_choice, path, rank, position)).is_some()
}

/// Tests the siblings from a place on against the smaller neighbours at a rank. The place behind those that are needed
/// there.
fn check_rank(
    evidence: &TreeEvidence<'_>,
    full_choice: &Choices,
    path: &[u8],
    rank: usize,
    siblings: &[Sibling],
    start: usize,
) -> Result<usize, TreeRejection>
    requires ready { IsReady evidence.now }
    requires full { full_choice.now ≡ full evidence.now.task.now }
    requires few { length path.now ≤ 60 }
    requires within { rank < length path.now }
    requires has_set { rank < length full_choice.now }
    ensures needed { IfOk result (λ next. LeadsTo evidence.now.task.now path.now (places siblings.now)
        (neighbours_from evidence.now.task.now path.now rank) start
        (neighbours_from evidence.now.task.now path.now (rank + 1)) next) }
    ensures differ { IfErr result (SiblingIsRefused evidence.now.task.now path.now (places siblings.now)
        (neighbours_from evidence.now.task.now path.now rank) start) }
{
    let mut rest = full_choice.sets()[rank];
    let mut next = start;
    while let Some(position) = rest.take_first() {
        if !is_needed(evidence, full_choice, path, rank, position) {
            continue;
        }
        if !is_listed_at(siblings, next, rank, position) {
            return Err(TreeRejection::WrongSibling(next));
        }
        next += 1;
    }
    Ok(next)
}

/// Tests that the siblings are the smaller neighbours that need a tree, in path order.
pub fn check_siblings(
    evidence: &TreeEvidence<'_>,
    full_choice: &Choices,
    path: &[u8],
    siblings: &[Sibling],
) -> Result<(), TreeRejection>
    requires ready { IsReady evidence.now }
    requires full { full_choice.now ≡ full evidence.now.task.now }
    requires few { length path.now ≤ 60 }
    requires short { length path.now ≤ length full_choice.now }
    ensures needed { IfOk result (λ _. AreNeeded evidence.now.task.now path.now
        (neighbours evidence.now.task.now path.now) (places siblings.now)) }
    ensures differ { IfErr result (SiblingIsRefused evidence.now.task.now path.now (places siblings.now)
        (neighbours evidence.now.task.now path.now) 0) }
{
    let mut next = 0;
    for rank in 0..path.len() {
        next = check_rank(evidence, full_choice, path, rank, siblings, next)?;
    }
    if next < siblings.len() {
        return Err(TreeRejection::WrongSibling(next));
    }
    Ok(())
}
