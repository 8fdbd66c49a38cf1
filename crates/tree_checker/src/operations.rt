//! The operations of a tree, one by one.

ghost use Rattle.std.specs.Prelude.{◌≡◌, ◌↔◌, IsTrue};
ghost use Rattle.choice_prices.specs.Pricing.{ticks_of};
ghost use Rattle.tree_certificate.specs.declared.parts.Operation.TheVariants.{Leaf, Narrow};
ghost use Rattle.tree_checker.specs.TreeReading.{Holds};
ghost use Rattle.tree_checker.specs.declared.operations.Left.TheVariants.{Wrong};
ghost use Rattle.tree_checker.specs.Steps.{prices_listed, IsReady, Leaves};

use crate::evidence::{TreeEvidence, ready_prices};
use hold_choices::{Choices, is_missed};
use hold_reach::Span;
use tree_certificate::Operation;

/// What an operation leaves to refute.
#[derive(Drop)]
pub enum Left {
    /// The operation does not hold.
    Wrong,
    Nothing,
    One(Choices),
    /// The first is refuted by the operations that follow, the other one by those after them.
    Two(Choices, Choices),
}

impl Left {
    /// Whether the operation does not hold.
    pub fn is_wrong(&self) -> bool
        ensures { IsTrue result ↔ (self.now ≡ Wrong) }
    {
        match self {
            Left::Wrong => true,
            _ => false,
        }
    }
}

/// Whether the price list at this place has a value beyond the ticks.
fn leaf_holds(evidence: &TreeEvidence<'_>, ticks: Span, choice: &Choices, place: u32) -> bool
    requires ready { IsReady evidence.now }
    ensures { IsTrue result ↔ Holds evidence.now.task.now (ticks_of ticks) (prices_listed evidence.now) choice.now
        (Leaf place) }
{
    match ready_prices(evidence, place) {
        Some(prices) => prices.is_beyond(ticks, choice.sets()),
        None => false,
    }
}

/// What is left of the choice where the price list at this place trims it.
fn left_by_narrow(evidence: &TreeEvidence<'_>, ticks: Span, choice: &Choices, place: u32) -> Left
    requires ready { IsReady evidence.now }
    ensures { Leaves evidence.now.task.now (ticks_of ticks) (prices_listed evidence.now) choice.now
        (Narrow place) result }
{
    let Some(prices) = ready_prices(evidence, place) else {
        return Left::Wrong;
    };
    if prices.is_beyond(ticks, choice.sets()) {
        return Left::Nothing;
    }
    Left::One(Choices::of(prices.trimmed(ticks, choice.sets())))
}

/// What the operation leaves to refute of a narrowed choice, in which each container has a position.
pub fn left_after(
    evidence: &TreeEvidence<'_>,
    ticks: Span,
    choice: &Choices,
    operation: Operation,
) -> Left
    requires ready { IsReady evidence.now }
    ensures { Leaves evidence.now.task.now (ticks_of ticks) (prices_listed evidence.now) choice.now operation result }
{
    let holds = match operation {
        Operation::Leaf(place) => leaf_holds(evidence, ticks, choice, place),
        Operation::Residue => is_missed(evidence.task, ticks.low, ticks.high, choice),
        Operation::Narrow(place) => return left_by_narrow(evidence, ticks, choice, place),
        Operation::Split(rank, names) => {
            let rank = usize::from(rank);
            return Left::Two(choice.kept(rank, names), choice.dropped(rank, names));
        }
    };
    if holds { Left::Nothing } else { Left::Wrong }
}
