//! Placements by the search with prices, and the judgement of certificates with prices.

ghost use Rattle.std.specs.Prelude.{◌≡◌, IfOk};
ghost use Rattle.plan_answers.specs.Outcomes.{priced_outcome};
ghost use Rattle.plan_answers.specs.PricedReply.{IsPricedPlacing, IsPricedJudgement};

use crate::reply_text::{good_line, rejected_line};
use base_words::NoMemory;
use hold_limits::Task;
use priced_certificate::PricedCertificate;
use priced_checker::{check_priced, priced_certificate_laws};
use priced_placer::{PricedAnswer, place_priced, write_priced};
use std::alloc::Global;
use task_answers::{Outcome, Reply, read_names};

fn outcome_of(answer: &PricedAnswer) -> Outcome
    ensures { result ≡ priced_outcome answer.now }
{
    match answer {
        PricedAnswer::Best(_) => Outcome::Done,
        PricedAnswer::NoneFits(_) => Outcome::NothingFits,
        PricedAnswer::Budget(_) => Outcome::OverBudget,
    }
}

/// The best placement of a task, by the search with prices. The budget is how many price-near prefixes it may look at.
/// The only error is that memory ran out.
pub fn placing_with_prices(alloc: Global, task: &Task, budget: u32) -> Result<Reply, NoMemory>
    ensures { IfOk result (λ reply. IsPricedPlacing task.now budget reply.outcome reply.text.items) }
{
    read_names(task);
    let _lawful = task.items();
    let answer = place_priced(alloc, task, budget)?;
    Ok(Reply {
        outcome: outcome_of(&answer),
        text: write_priced(alloc, task, &answer)?,
    })
}

/// Whether a certificate with prices is good for a task, or else the first reason why not. The only error is that
/// memory ran out.
pub fn judgement_of_prices(
    alloc: Global,
    task: &Task,
    certificate: &PricedCertificate,
) -> Result<Reply, NoMemory>
    ensures { IfOk result (λ reply. IsPricedJudgement task.now certificate.now reply.outcome reply.text.items) }
{
    let _lawful = task.items();
    priced_certificate_laws();
    match check_priced(task, certificate) {
        Ok(()) => Ok(Reply {
            outcome: Outcome::Done,
            text: good_line(alloc, &certificate.claim)?,
        }),
        Err(reason) => Ok(Reply {
            outcome: Outcome::Rejected,
            text: rejected_line(alloc, task, &reason)?,
        }),
    }
}
