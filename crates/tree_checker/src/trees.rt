//! The trees of a certificate, one after another.

ghost use Rattle.std.specs.Prelude.{◌≡◌, ◌≤◌, ◌∷◌, [], ◌++◌, IfOk, IfErr, Some, All, length, take, map};
ghost use Rattle.price_trees.specs.Narrowing.{full, fixed};
ghost use Rattle.tree_certificate.specs.Listed.{listed_sibling};
ghost use Rattle.tree_checker.specs.GoodTrees.{TreeHolds, sibling_tree, trees_for};
ghost use Rattle.tree_checker.specs.Steps.{prices_listed, path_of, IsReady, IsMeasured, tree_of, TreeIsRefused, TreesAreRefused};

use crate::claim::{Claimed, nearer_span, span_within, window_span};
use crate::evidence::TreeEvidence;
use crate::rejection::TreeRejection;
use crate::walk::wrong_operation;
use arrayvec::ArrayVec;
use hold_choices::Choices;
use hold_reach::Span;
use std::alloc::Global;
use std::cmp::min;
use tree_certificate::{Operation, Sibling};

/// The path's numbers before the rank, and then this one.
fn front(path: &[u8], rank: usize, position: u8) -> ArrayVec<u8, 61>
    requires { length path.now ≤ 60 }
    ensures { result.items ≡ take rank path.now ++ position ∷ [] }
{
    let kept = min(rank, path.len());
    let mut front = ArrayVec::new();
    match front.try_extend_from_slice(&path[..kept]) {
        Ok(()) => front.push(position),
        Err(_) => unreachable!(),
    }
    front
}

/// The choice of the paths that have the path's numbers before the rank, and this position there.
pub fn begun(full_choice: &Choices, path: &[u8], rank: usize, position: u8) -> Choices
    requires { length path.now ≤ 60 }
    ensures { result ≡ fixed (take rank path.now ++ position ∷ []) full_choice.now }
{
    full_choice.fixed(front(path, rank, position).as_slice())
}

/// Tests the tree with this number.
fn check_tree(
    alloc: Global,
    evidence: &TreeEvidence<'_>,
    number: usize,
    ticks: Span,
    choice: Choices,
    operations: &[Operation],
) -> Result<(), TreeRejection>
    requires ready { IsReady evidence.now }
    ensures holds { IfOk result (λ _. TreeHolds evidence.now.task.now (prices_listed evidence.now)
        (tree_of ticks choice operations.now)) }
    ensures fails { IfErr result (TreeIsRefused evidence.now.task.now (prices_listed evidence.now)
        (tree_of ticks choice operations.now) number) }
{
    match wrong_operation(alloc, evidence, ticks, choice, operations) {
        Ok(None) => Ok(()),
        Ok(Some(at)) => Err(TreeRejection::WrongOperation(number, at)),
        Err(_) => Err(TreeRejection::NoMemory),
    }
}

/// Tests the trees of the siblings: no path as near as the claimed one begins with one of them.
fn check_sibling_trees(
    alloc: Global,
    evidence: &TreeEvidence<'_>,
    full_choice: &Choices,
    claimed: &Claimed<'_>,
    siblings: &[Sibling],
) -> Result<(), TreeRejection>
    requires ready { IsReady evidence.now }
    requires full { full_choice.now ≡ full evidence.now.task.now }
    requires measured { IsMeasured evidence.now.task.now (Some claimed.now) }
    ensures hold { IfOk result (λ _. All (TreeHolds evidence.now.task.now (prices_listed evidence.now))
        (map (sibling_tree evidence.now.task.now claimed.now.path.now.items) (map listed_sibling siblings.now))) }
    ensures fails { IfErr result (TreesAreRefused evidence.now.task.now (prices_listed evidence.now)
        (map (sibling_tree evidence.now.task.now claimed.now.path.now.items) (map listed_sibling siblings.now)) 1) }
{
    let ticks = span_within(evidence.task, claimed.distance);
    for at in 0..siblings.len() {
        let sibling = &siblings[at];
        let choice = begun(
            full_choice,
            claimed.path.as_slice(),
            usize::from(sibling.rank),
            sibling.position,
        );
        let operations = sibling.operations.as_slice();
        if let Err(rejection) = check_tree(alloc, evidence, at + 1, ticks, choice, operations) {
            return Err(rejection);
        }
    }
    Ok(())
}

/// Tests all trees: first that nothing is nearer than the claimed path, or that nothing is admissible where none is
/// claimed; then those of the siblings.
pub fn check_all_trees(
    alloc: Global,
    evidence: &TreeEvidence<'_>,
    full_choice: &Choices,
    claimed: &Option<Claimed<'_>>,
    root: &[Operation],
    siblings: &[Sibling],
) -> Result<(), TreeRejection>
    requires ready { IsReady evidence.now }
    requires full { full_choice.now ≡ full evidence.now.task.now }
    requires measured { IsMeasured evidence.now.task.now claimed.now }
    ensures hold { IfOk result (λ _. All (TreeHolds evidence.now.task.now (prices_listed evidence.now))
        (trees_for evidence.now.task.now (path_of claimed.now) root.now (map listed_sibling siblings.now))) }
    ensures fails { IfErr result (TreesAreRefused evidence.now.task.now (prices_listed evidence.now)
        (trees_for evidence.now.task.now (path_of claimed.now) root.now (map listed_sibling siblings.now)) 0) }
{
    let task = evidence.task;
    match claimed {
        Some(claimed) => {
            let ticks = nearer_span(task, claimed.distance);
            check_tree(alloc, evidence, 0, ticks, full_choice.copy(), root)?;
            check_sibling_trees(alloc, evidence, full_choice, claimed, siblings)
        }
        None => {
            let ticks = window_span(task);
            check_tree(alloc, evidence, 0, ticks, full_choice.copy(), root)
        }
    }
}
