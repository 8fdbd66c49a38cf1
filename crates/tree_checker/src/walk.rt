//! The walk over the operations of a tree.
//!
//! It keeps the choices that are still to be refuted, the next one on top: each is narrowed, and has a position for every
//! container. An operation takes the top one away, and puts there what it leaves. Nothing calls itself, however deep a
//! tree is.

ghost use Rattle.std.specs.Prelude.{List, ◌∷◌, ◌++◌, reverse, IfOk, IfSome, IfNone, OnOk, All};
ghost use Rattle.price_trees.specs.Prices.{Prices};
ghost use Rattle.price_trees.specs.Narrowing.{Ticks};
ghost use Rattle.choice_prices.specs.Pricing.{ticks_of};
ghost use Rattle.tree_checker.specs.TreeReading.{IsOpenAs};
ghost use Rattle.tree_checker.specs.GoodTrees.{TreeHolds, to_refute};
ghost use Rattle.tree_checker.specs.FirstReason.{OperationFails};
ghost use Rattle.tree_checker.specs.Steps.{prices_listed, IsReady, tree_of, StandsFor, left_choices};

use crate::evidence::{TreeEvidence, opened};
use crate::operations::{Left, left_after};
use base_words::NoMemory;
use hold_choices::Choices;
use hold_reach::Span;
use std::alloc::Global;
use tree_certificate::Operation;

/// Puts the choice on top, narrowed, unless a container then has no position left.
fn push_open(
    evidence: &TreeEvidence<'_>,
    pending: &mut Vec<Choices>,
    choice: Choices,
) -> Result<(), NoMemory>
    requires ready { IsReady evidence.now }
    requires opens { All (λ c. IsOpenAs evidence.now.task.now c c) pending.old.items }
    ensures opens { OnOk result (All (λ c. IsOpenAs evidence.now.task.now c c) pending.new.items) }
    ensures stands { OnOk result ((ticks : Ticks) (prices : List Prices)
        → StandsFor evidence.now.task.now ticks prices pending.new.items (choice ∷ reverse pending.old.items)) }
{
    match opened(evidence, choice) {
        Some(left) => match pending.push(left) {
            Ok(()) => Ok(()),
            Err(_) => Err(NoMemory),
        },
        None => Ok(()),
    }
}

/// Puts what an operation leaves on top.
fn push_left(
    evidence: &TreeEvidence<'_>,
    pending: &mut Vec<Choices>,
    left: Left,
) -> Result<(), NoMemory>
    requires ready { IsReady evidence.now }
    requires opens { All (λ c. IsOpenAs evidence.now.task.now c c) pending.old.items }
    ensures opens { OnOk result (All (λ c. IsOpenAs evidence.now.task.now c c) pending.new.items) }
    ensures stands { OnOk result ((ticks : Ticks) (prices : List Prices)
        → StandsFor evidence.now.task.now ticks prices pending.new.items
        (left_choices left ++ reverse pending.old.items)) }
{
    match left {
        Left::Wrong | Left::Nothing => Ok(()),
        Left::One(next) => push_open(evidence, pending, next),
        Left::Two(next, later) => {
            push_open(evidence, pending, later)?;
            push_open(evidence, pending, next)
        }
    }
}

/// What is to be refuted at first: the choice, or nothing where there is no tick.
fn pending_at_start(
    alloc: Global,
    evidence: &TreeEvidence<'_>,
    ticks: Span,
    choice: Choices,
) -> Result<Vec<Choices>, NoMemory>
    requires ready { IsReady evidence.now }
    ensures opens { IfOk result (λ pending. All (λ c. IsOpenAs evidence.now.task.now c c) pending.items) }
    ensures stands { IfOk result (λ pending. (prices : List Prices)
        → StandsFor evidence.now.task.now (ticks_of ticks) prices pending.items (to_refute (ticks_of ticks) choice)) }
{
    let mut pending = Vec::new(alloc);
    if ticks.high < ticks.low {
        return Ok(pending);
    }
    push_open(evidence, &mut pending, choice)?;
    Ok(pending)
}

/// The place of the first operation that does not hold, is missing or is too many. None where the operations refute the
/// choice for the ticks.
pub fn wrong_operation(
    alloc: Global,
    evidence: &TreeEvidence<'_>,
    ticks: Span,
    choice: Choices,
    operations: &[Operation],
) -> Result<Option<usize>, NoMemory>
    requires ready { IsReady evidence.now }
    ensures holds { IfOk result (λ place. IfNone place (TreeHolds evidence.now.task.now (prices_listed evidence.now)
        (tree_of ticks choice operations.now))) }
    ensures fails { IfOk result (λ place. IfSome place (OperationFails evidence.now.task.now
        (prices_listed evidence.now) (tree_of ticks choice operations.now))) }
{
    let mut pending = pending_at_start(alloc, evidence, ticks, choice)?;
    let mut at = 0;
    while let Some(choice) = pending.pop() {
        if at == operations.len() {
            return Ok(Some(at));
        }
        let left = left_after(evidence, ticks, &choice, operations[at]);
        if left.is_wrong() {
            return Ok(Some(at));
        }
        push_left(evidence, &mut pending, left)?;
        at += 1;
    }
    Ok(if at < operations.len() {
        Some(at)
    } else {
        None
    })
}
