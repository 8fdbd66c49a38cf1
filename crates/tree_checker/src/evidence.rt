//! What the trees of a certificate are judged by.

ghost use Rattle.std.specs.Prelude.{◌≡◌, ◌≤◌, length, slice_get, MatchOption, Some};
ghost use Rattle.tree_checker.specs.TreeReading.{IsOpenAs, IsClosed};
ghost use Rattle.tree_checker.specs.Steps.{prices_listed, IsReady};

use choice_prices::ReadyPrices;
use hold_choices::{Choices, Conflicts, narrowed};
use hold_limits::Task;
use position_set::PositionSet;
use tree_certificate::PriceList;

/// A task with what its containers take from one another, and the cliques and price lists of a certificate.
#[derive(Drop)]
pub struct TreeEvidence<'a> {
    pub task: &'a Task,
    pub conflicts: &'a Conflicts,
    pub cliques: &'a [PositionSet],
    pub prices: &'a [PriceList],
}

/// The narrowed choice, and none where a container has no position left.
pub fn opened(evidence: &TreeEvidence<'_>, choice: Choices) -> Option<Choices>
    requires ready { IsReady evidence.now }
    ensures { MatchOption result (IsClosed evidence.now.task.now choice) (IsOpenAs evidence.now.task.now choice) }
{
    let left = narrowed(evidence.task, evidence.conflicts, choice);
    if left.has_empty() { None } else { Some(left) }
}

/// The price list at this place, made ready. None where the certificate has no such list.
pub fn ready_prices<'a>(evidence: &TreeEvidence<'a>, place: u32) -> Option<ReadyPrices<'a>>
    requires ready { IsReady evidence.now }
    ensures { MatchOption result (length (prices_listed evidence.now) ≤ place)
        (λ ready. (ready.task ≡ evidence.now.task.now)
        × (slice_get (prices_listed evidence.now) place ≡ Some ready.prices)) }
{
    let list = evidence.prices.get(place as usize)?;
    match ReadyPrices::new(evidence.task, evidence.cliques, list) {
        Ok(prices) => Some(prices),
        Err(_) => unreachable!(),
    }
}
