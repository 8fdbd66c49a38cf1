//! The best placement of a load over several sectors.

ghost use Rattle.std.specs.Prelude.{◌≡◌, IfOk, None, Some};
ghost use Rattle.certificate.specs.Evidence.{claimed};
ghost use Rattle.stop_placer.specs.StopAnswers.{IfBest, IfBudget, IfNoneFits, IsStopAnswerTo};

use crate::explorer::StopExplorer;
use base_words::NoMemory;
use certificate::Claim;
use hold_limits::Path;
use path_search::search;
use std::alloc::Global;
use stop_partial::{NextPositions, StopPartial};
use stop_tasks::StopTask;
use stop_world::stop_world_laws;

/// What the search for the best path over several sectors ends with.
#[derive(Debug, Drop)]
pub enum StopAnswer {
    /// The best path.
    Best(Path),
    /// No path is admissible.
    NoneFits,
    /// More prefixes are near than the budget, which this is.
    Budget(u32),
}

fn answer_of(claim: Claim) -> StopAnswer
    ensures best { IfBest result (λ path. claimed claim ≡ Some path) }
    ensures none { IfNoneFits result (claimed claim ≡ None) }
    ensures spent { IfBudget result (λ _. ⊥) }
{
    match claim {
        Claim::Best(path) => StopAnswer::Best(path),
        Claim::NoneFits => StopAnswer::NoneFits,
    }
}

/// The best path of a load over several sectors: the admissible one that comes nearest the ideal on the first sector, by
/// path order among equals. Where more prefixes are near than the budget, the answer is the budget. So the answer is a
/// function of the load and the budget, unless memory runs out.
pub fn place_stops(alloc: Global, t: &StopTask, budget: u32) -> Result<StopAnswer, NoMemory>
    ensures { IfOk result (IsStopAnswerTo t.now budget) }
{
    stop_world_laws();
    let _lawful = t.first().items();
    let Some(partial) = StopPartial::new(t) else {
        return Ok(StopAnswer::NoneFits);
    };
    let explorer = StopExplorer {
        stops: t,
        partial,
        next: NextPositions::none(),
    };
    match search(alloc, explorer, budget)? {
        Some(found) => Ok(answer_of(found.claim)),
        None => Ok(StopAnswer::Budget(budget)),
    }
}
