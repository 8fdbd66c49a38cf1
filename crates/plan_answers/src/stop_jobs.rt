//! Placements of loads over several sectors.

ghost use Rattle.std.specs.Prelude.{◌≡◌, IfOk};
ghost use Rattle.plan_answers.specs.Outcomes.{stop_outcome};
ghost use Rattle.plan_answers.specs.StopReply.{IsStopPlacing};

use base_words::NoMemory;
use std::alloc::Global;
use stop_answer::write_stop_answer;
use stop_placer::{StopAnswer, place_stops};
use stop_tasks::StopTask;
use task_answers::{Outcome, Reply};

fn outcome_of(answer: &StopAnswer) -> Outcome
    ensures { result ≡ stop_outcome answer.now }
{
    match answer {
        StopAnswer::Best(_) => Outcome::Done,
        StopAnswer::NoneFits => Outcome::NothingFits,
        StopAnswer::Budget(_) => Outcome::OverBudget,
    }
}

/// The best placement of a load over several sectors. The budget is how many near prefixes the search may look at. The
/// only error is that memory ran out.
pub fn placing_over_sectors(alloc: Global, stops: &StopTask, budget: u32) -> Result<Reply, NoMemory>
    ensures { IfOk result (λ reply. IsStopPlacing stops.now budget reply.outcome reply.text.items) }
{
    let answer = place_stops(alloc, stops, budget)?;
    Ok(Reply {
        outcome: outcome_of(&answer),
        text: write_stop_answer(alloc, stops, &answer)?,
    })
}
