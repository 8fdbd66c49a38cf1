//! Placements by the best-first search.

ghost use Rattle.std.specs.Prelude.{◌≡◌, ℕ, IfOk, All};
ghost use Rattle.std.specs.Option.{option_map};
ghost use Rattle.cert_checker.specs.Claims.{IsGoodFor};
ghost use Rattle.placer.specs.Answers.{IfBest, IfCertified, IfNoneFits, IsAnswerTo};
ghost use Rattle.placer.specs.AnswerText.{answer_text};
ghost use Rattle.hold_limits.specs.Problem.{Problem};
ghost use Rattle.hold_parts.specs.Spellings.{IsUldId};
ghost use Rattle.hold_parts.specs.declared.parts.Item.{Item};
ghost use Rattle.task_answers.specs.Names.{IsNamedTask};
ghost use Rattle.task_answers.specs.Outcomes.{outcome_of};
ghost use Rattle.task_answers.specs.NearReply.{IsPlacing};
ghost use Rattle.task_answers.specs.Found.{HasPath};

use crate::reply::{Outcome, Reply, TreePlacing};
use base_words::NoMemory;
use hold_limits::{Item, Path, Task};
use placer::{Answer, Placing, write_answer};
use std::alloc::Global;

fn outcome_of(answer: &Answer) -> Outcome
    ensures { result ≡ outcome_of answer.now }
{
    match answer {
        Answer::Best(_) => Outcome::Done,
        Answer::NoneFits(_) => Outcome::NothingFits,
        Answer::Budget(_) => Outcome::OverBudget,
    }
}

/// The certificate of an answer, if it has one, is good. The call does nothing: it is there for its contract.
pub fn has_good_evidence(answer: &Answer)
    ensures { IfCertified answer.now (λ it. IsGoodFor it.task it.certificate) }
{
    match answer {
        Answer::Best(proven) => {
            let _good = proven.certificate();
        }
        Answer::NoneFits(no_plan) => {
            let _good = no_plan.certificate();
        }
        Answer::Budget(_) => {}
    }
}

/// Each container has an identity.
fn read_ids(items: &[Item])
    ensures { All (λ (item : Item). IsUldId item.id) items.now }
{
    for item in items {
        let _id = item.id.bytes();
    }
}

/// The task has names that can stand in a line. What is known of a name is known once it is read: the call does nothing
/// else.
pub fn read_names(task: &Task)
    ensures { IsNamedTask task.now }
{
    let _names = task.hold().named_positions();
    read_ids(task.items());
}

/// The same path.
pub fn copy_of(path: &Path) -> Path
    ensures { result.items ≡ path.now.items }
{
    match Path::try_from(path.as_slice()) {
        Ok(copy) => copy,
        Err(_) => unreachable!(),
    }
}

/// The path of an answer, where it is the best plan.
fn path_of(answer: &Answer) -> Option<Path>
    ensures { (t : Problem) (budget : ℕ) → IsAnswerTo t budget answer.now
        → HasPath t (outcome_of answer.now) (option_map (λ path. path.items) result) }
{
    match answer {
        Answer::Best(proven) => Some(copy_of(proven.path())),
        Answer::NoneFits(_) | Answer::Budget(_) => None,
    }
}

/// The reply with an answer of the best-first search to a task. The only error is that memory ran out.
pub fn reply_to(alloc: Global, task: &Task, answer: &Answer) -> Result<Reply, NoMemory>
    requires best { IfBest answer.now (λ proven. proven.task ≡ task.now) }
    requires none { IfNoneFits answer.now (λ no_plan. no_plan.task ≡ task.now) }
    ensures outcome { IfOk result (λ reply. reply.outcome ≡ outcome_of answer.now) }
    ensures placing { IfOk result (λ reply. (budget : ℕ) → IsAnswerTo task.now budget answer.now
        → IsPlacing task.now budget reply.outcome reply.text.items) }
    ensures text { IfOk result (λ reply. reply.text.items ≡ answer_text task.now answer.now) }
{
    has_good_evidence(answer);
    read_names(task);
    let _lawful = task.items();
    Ok(Reply {
        outcome: outcome_of(answer),
        text: write_answer(alloc, task, answer)?,
    })
}

/// The best placement of a task, by the best-first search, with the path of its plan. The budget is how many near
/// prefixes it may look at. The only error is that memory ran out.
pub fn find_near<P: Placing>(
    alloc: Global,
    task: &Task,
    budget: u32,
    placing: &P,
) -> Result<TreePlacing, NoMemory>
    ensures placing { IfOk result (λ found. IsPlacing task.now budget found.reply.outcome found.reply.text.items) }
    ensures path { IfOk result (λ found.
        HasPath task.now found.reply.outcome (option_map (λ path. path.items) found.path)) }
{
    let answer = placing.place(alloc, task, budget)?;
    let reply = reply_to(alloc, task, &answer)?;
    let path = path_of(&answer);
    Ok(TreePlacing { reply, path })
}

/// The best placement of a task, by the best-first search. The budget is how many near prefixes it may look at. The
/// only error is that memory ran out.
pub fn placement<P: Placing>(
    alloc: Global,
    task: &Task,
    budget: u32,
    placing: &P,
) -> Result<Reply, NoMemory>
    ensures { IfOk result (λ reply. IsPlacing task.now budget reply.outcome reply.text.items) }
{
    let found = find_near(alloc, task, budget, placing)?;
    Ok(found.reply)
}
