//! The judgement of certificates of trees, and of those of either kind.

ghost use Rattle.std.specs.Prelude.{IfOk};
ghost use Rattle.tree_certificate.specs.Listed.{listed_trees};
ghost use Rattle.plan_answers.specs.TreeReply.{IsTreeJudgement};
ghost use Rattle.plan_answers.specs.AnyReply.{any_listed, IsAnyJudgement};

use crate::any_certificate::AnyCertificate;
use crate::near_jobs::judgement;
use crate::reply_text::{good_line, rejected_trees_line};
use base_words::NoMemory;
use hold_limits::Task;
use std::alloc::Global;
use task_answers::{Outcome, Reply};
use tree_certificate::TreeCertificate;
use tree_checker::{check_trees, tree_certificate_laws};

/// Whether a certificate of trees is good for a task.
fn judgement_of_trees(
    alloc: Global,
    task: &Task,
    certificate: &TreeCertificate,
) -> Result<Reply, NoMemory>
    ensures { IfOk result (λ reply.
        IsTreeJudgement task.now (listed_trees certificate.now) reply.outcome reply.text.items) }
{
    let _lawful = task.items();
    tree_certificate_laws();
    match check_trees(alloc, task, certificate) {
        Ok(()) => Ok(Reply {
            outcome: Outcome::Done,
            text: good_line(alloc, &certificate.claim)?,
        }),
        Err(reason) => Ok(Reply {
            outcome: Outcome::Rejected,
            text: rejected_trees_line(alloc, reason)?,
        }),
    }
}

/// Whether a certificate of either kind is good for a task, or else the first reason why not. The only error is that
/// memory ran out.
pub fn judgement_of_any(
    alloc: Global,
    task: &Task,
    certificate: &AnyCertificate,
) -> Result<Reply, NoMemory>
    ensures { IfOk result (λ reply.
        IsAnyJudgement task.now (any_listed certificate.now) reply.outcome reply.text.items) }
{
    match certificate {
        AnyCertificate::OfCuts(certificate) => judgement(alloc, task, certificate),
        AnyCertificate::OfTrees(certificate) => judgement_of_trees(alloc, task, certificate),
    }
}
