//! What is answered to the question why a task has no plan.

ghost use Rattle.std.specs.Prelude.{◌≡◌, IfOk};
ghost use Rattle.plan_reasons.specs.Explanation.{outcome_of, IsExplanation};

use crate::reasons::{Why, ask_why};
use crate::text::{unknown_in, write_why};
use base_words::NoMemory;
use hold_limits::Task;
use placer::Placing;
use std::alloc::Global;
use task_answers::{Outcome, Reply};

/// A plan, none, or that something was not decided.
fn outcome_of(why: &Why) -> Outcome
    ensures { result ≡ outcome_of why.now }
{
    match why {
        Why::Plan => Outcome::Done,
        Why::NoPlan(reasons) if unknown_in(reasons) == 0 => Outcome::NothingFits,
        Why::NoPlan(_) => Outcome::Undecided,
        Why::Open(_) => Outcome::Undecided,
    }
}

/// Why the task has no plan, with so many looks for each question. The only error is that memory ran out.
pub fn explanation<P: Placing>(
    alloc: Global,
    task: &Task,
    looks: u32,
    placing: &P,
) -> Result<Reply, NoMemory>
    ensures { IfOk result (λ reply. IsExplanation task.now looks reply.outcome reply.text.items) }
{
    let why = ask_why(alloc, task, looks, placing)?;
    let text = write_why(alloc, task, &why)?;
    Ok(Reply {
        outcome: outcome_of(&why),
        text,
    })
}
