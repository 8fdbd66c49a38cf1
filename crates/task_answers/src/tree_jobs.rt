//! Placements by trees.

ghost use Rattle.std.specs.Prelude.{◌≡◌, ◌≤◌, ℕ, None, IfOk, IfSome, length};
ghost use Rattle.std.specs.Option.{option_map};
ghost use Rattle.hold_limits.specs.Problem.{Problem};
ghost use Rattle.tree_search.specs.TreeAnswers.{IsTreeAnswerTo};
ghost use Rattle.task_answers.specs.Limits.{longest_certificate};
ghost use Rattle.task_answers.specs.ReplyText.{undecided_text};
ghost use Rattle.task_answers.specs.TreeReply.{IsTreePlacing};
ghost use Rattle.task_answers.specs.Found.{IsFound, IsTreePlacingOf};

use crate::limits::{GREATEST_BUDGET, LONGEST_CERTIFICATE};
use crate::near_jobs::{copy_of, find_near, read_names};
use crate::reply::{Outcome, Reply, TreePlacing};
use crate::reply_text::undecided_line;
use crate::spelled::can_be_spelled;
use base_words::NoMemory;
use hold_limits::{Path, Task};
use placer::Placing;
use plan_text::push_plan;
use std::alloc::Global;
use telex::Builder;
use tree_certificate::push_trees;
use tree_checker::{NoPlanByTrees, ProvenByTrees};
use tree_search::{TreeAnswer, find_best};

/// What is found, with this text. None where no file can have it.
fn fitting(outcome: Outcome, text: Vec<u8>, path: Option<Path>) -> Option<TreePlacing>
    ensures { IfSome result (λ found. (found.reply.outcome ≡ outcome) × (found.reply.text.items ≡ text.items)
        × (found.path ≡ path) × (length text.items ≤ longest_certificate)) }
{
    if text.len() <= LONGEST_CERTIFICATE {
        Some(TreePlacing {
            reply: Reply { outcome, text },
            path,
        })
    } else {
        None
    }
}

/// The plan that is proved to be the best, and the certificate for it. None where it could not be read back.
fn proven_plan(alloc: Global, proven: &ProvenByTrees) -> Result<Option<TreePlacing>, NoMemory>
    ensures { IfOk result (λ found. IfSome found (λ found. (looks : ℕ) → IsFound proven.now.task looks found)) }
{
    let task = proven.task();
    let certificate = proven.certificate();
    if !can_be_spelled(task, certificate) {
        return Ok(None);
    }
    read_names(task);
    let _lawful = task.items();
    let path = proven.path();
    let mut out = Builder::new(alloc);
    push_plan(&mut out, task, path)?;
    push_trees(&mut out, task, certificate)?;
    Ok(fitting(Outcome::Done, out.finish(), Some(copy_of(path))))
}

/// `NONE`, and the certificate for it. None where it could not be read back.
fn proven_none(alloc: Global, no_plan: &NoPlanByTrees) -> Result<Option<TreePlacing>, NoMemory>
    ensures { IfOk result (λ found. IfSome found (λ found. (looks : ℕ) → IsFound no_plan.now.task looks found)) }
{
    let task = no_plan.task();
    let certificate = no_plan.certificate();
    if !can_be_spelled(task, certificate) {
        return Ok(None);
    }
    read_names(task);
    let _lawful = task.items();
    let mut out = Builder::new(alloc);
    out.text(b"NONE\n")?;
    push_trees(&mut out, task, certificate)?;
    Ok(fitting(Outcome::NothingFits, out.finish(), None))
}

/// That so many looks do not decide a task.
fn undecided(alloc: Global, looks: u32) -> Result<TreePlacing, NoMemory>
    ensures outcome { IfOk result (λ found. found.reply.outcome ≡ Outcome.Undecided) }
    ensures text { IfOk result (λ found. found.reply.text.items ≡ undecided_text looks) }
    ensures path { IfOk result (λ found. found.path ≡ None) }
{
    Ok(TreePlacing {
        reply: Reply {
            outcome: Outcome::Undecided,
            text: undecided_line(alloc, looks)?,
        },
        path: None,
    })
}

/// The best placement of a task whose trees are not found by so many looks: by the best-first search, with the looks as
/// its budget, or the greatest one.
fn find_without_trees<P: Placing>(
    alloc: Global,
    task: &Task,
    looks: u32,
    placing: &P,
) -> Result<TreePlacing, NoMemory>
    ensures { IfOk result (IsFound task.now looks) }
{
    let found = find_near(alloc, task, looks.min(GREATEST_BUDGET), placing)?;
    match found.reply.outcome {
        Outcome::OverBudget => undecided(alloc, looks),
        _ => Ok(found),
    }
}

/// What is found, where an answer decides a task. None where the trees do not decide it, or their certificate could not
/// be read back.
fn found_by(alloc: Global, answer: &TreeAnswer) -> Result<Option<TreePlacing>, NoMemory>
    ensures { IfOk result (λ found. IfSome found (λ found. (t : Problem) (looks : ℕ) → IsTreeAnswerTo t looks answer.now
        → IsFound t looks found)) }
{
    match answer {
        TreeAnswer::Best(proven) => proven_plan(alloc, proven),
        TreeAnswer::NoneFits(no_plan) => proven_none(alloc, no_plan),
        TreeAnswer::Undecided(_) => Ok(None),
    }
}

/// The best placement of a task: by a search that looks at so many choices at most, and by the best-first search where
/// they do not decide it. Beside the answer stands the path of its plan. The only error is that memory ran out.
pub fn find_by_trees<P: Placing>(
    alloc: Global,
    task: &Task,
    looks: u32,
    placing: &P,
) -> Result<TreePlacing, NoMemory>
    ensures { IfOk result (λ found. IsTreePlacingOf task.now looks (option_map (λ path. path.items) found.path)
        found.reply.outcome found.reply.text.items) }
{
    let answer = find_best(alloc, task, looks)?;
    match found_by(alloc, &answer)? {
        Some(found) => Ok(found),
        None => find_without_trees(alloc, task, looks, placing),
    }
}

/// The best placement of a task: by a search that looks at so many choices at most, and by the best-first search where
/// they do not decide it. The only error is that memory ran out.
pub fn placing_by_trees<P: Placing>(
    alloc: Global,
    task: &Task,
    looks: u32,
    placing: &P,
) -> Result<Reply, NoMemory>
    ensures { IfOk result (λ reply. IsTreePlacing task.now looks reply.outcome reply.text.items) }
{
    let found = find_by_trees(alloc, task, looks, placing)?;
    Ok(found.reply)
}
