//! The judgement of certificates of cuts.

ghost use Rattle.std.specs.Prelude.{IfOk};
ghost use Rattle.plan_answers.specs.NearReply.{IsJudgement};

use crate::reply_text::{good_line, rejected_line};
use base_words::NoMemory;
use cert_checker::check;
use certificate::Certificate;
use hold_limits::Task;
use priced_checker::PricedReject;
use std::alloc::Global;
use task_answers::{Outcome, Reply};

/// Whether a certificate of cuts is good for a task, or else the first reason why not. The only error is that memory
/// ran out.
pub fn judgement(alloc: Global, task: &Task, certificate: &Certificate) -> Result<Reply, NoMemory>
    ensures { IfOk result (λ reply. IsJudgement task.now certificate.now reply.outcome reply.text.items) }
{
    let _lawful = task.items();
    match check(task, certificate) {
        Ok(()) => Ok(Reply {
            outcome: Outcome::Done,
            text: good_line(alloc, &certificate.claim)?,
        }),
        Err(reason) => Ok(Reply {
            outcome: Outcome::Rejected,
            text: rejected_line(alloc, task, &PricedReject::from(reason))?,
        }),
    }
}
