//! The text of an answer.

ghost use Rattle.std.specs.Prelude.{◌≡◌, IfOk};
ghost use Rattle.placer.specs.Answers.{IfBest, IfNoneFits};
ghost use Rattle.placer.specs.AnswerText.{answer_text, budget_text};

use crate::answer::Answer;
use base_words::NoMemory;
use cert_checker::{NoPlan, Proven};
use certificate::push_certificate;
use hold_limits::Task;
use plan_text::push_plan;
use std::alloc::Global;
use telex::Builder;

fn plan_of(alloc: Global, task: &Task, proven: &Proven) -> Result<Vec<u8>, NoMemory>
    requires { proven.now.task ≡ task.now }
    ensures { IfOk result (λ text. text.items ≡ answer_text task.now (Answer.Best proven.now)) }
{
    let mut out = Builder::new(alloc);
    push_plan(&mut out, task, proven.path())?;
    push_certificate(&mut out, task, proven.certificate())?;
    Ok(out.finish())
}

fn none_of(alloc: Global, task: &Task, no_plan: &NoPlan) -> Result<Vec<u8>, NoMemory>
    requires { no_plan.now.task ≡ task.now }
    ensures { IfOk result (λ text. text.items ≡ answer_text task.now (Answer.NoneFits no_plan.now)) }
{
    let mut out = Builder::new(alloc);
    out.text(b"NONE\n")?;
    push_certificate(&mut out, task, no_plan.certificate())?;
    Ok(out.finish())
}

/// The text of an answer that the budget is spent, which is this one.
pub fn write_budget(alloc: Global, budget: u32) -> Result<Vec<u8>, NoMemory>
    ensures { IfOk result (λ text. text.items ≡ budget_text budget) }
{
    let mut out = Builder::new(alloc);
    out.text(b"BUDGET ")?;
    out.count(u64::from(budget))?;
    out.end_line()?;
    Ok(out.finish())
}

/// The text of an answer to the task: the plan or `NONE`, and then the certificate; or `BUDGET` with the budget.
pub fn write_answer(alloc: Global, task: &Task, answer: &Answer) -> Result<Vec<u8>, NoMemory>
    requires best { IfBest answer.now (λ proven. proven.task ≡ task.now) }
    requires none { IfNoneFits answer.now (λ no_plan. no_plan.task ≡ task.now) }
    ensures { IfOk result (λ text. text.items ≡ answer_text task.now answer.now) }
{
    match answer {
        Answer::Best(proven) => plan_of(alloc, task, proven),
        Answer::NoneFits(no_plan) => none_of(alloc, task, no_plan),
        Answer::Budget(budget) => write_budget(alloc, *budget),
    }
}
