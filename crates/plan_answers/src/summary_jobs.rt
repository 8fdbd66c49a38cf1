//! Summaries of the placements of generated loads.

ghost use Rattle.std.specs.Prelude.{◌≡◌, ◌≤◌, ◌++◌, ℕ, List, All, IfOk, OnOk, length, Some};
ghost use Rattle.hold_parts.specs.declared.parts.Item.{Item};
ghost use Rattle.certificate.specs.Evidence.{claimed};
ghost use Rattle.generated_load.specs.Load.{generated_problem};
ghost use Rattle.placer.specs.Answers.{IfBest};
ghost use Rattle.plan_answers.specs.Outcomes.{summary_outcome, IsSummaryText};
ghost use Rattle.plan_answers.specs.ReplyText.{total_mass, load_lines, count_lines, plan_summary, none_summary, budget_summary};
ghost use Rattle.plan_answers.specs.SummaryReply.{IsSummary};
ghost use Rattle.text_lines.specs.Lines.{text_of};

use base_words::NoMemory;
use cert_checker::{NoPlan, Proven};
use certificate::Certificate;
use generated_load::generated_task;
use hold_limits::{Item, Task};
use placer::{Answer, Placing};
use plan_text::push_balance;
use std::alloc::Global;
use task_answers::{Outcome, Reply, USUAL_BUDGET, has_good_evidence, push_number_line};
use telex::Builder;

/// The mass of some containers together, in kilograms.
fn total_mass(items: &[Item]) -> u64
    requires few { length items.now ≤ 60 }
    requires light { All (λ (item : Item). item.mass.0 ≤ 20000) items.now }
    ensures { result ≡ total_mass items.now }
{
    let mut total = 0;
    for item in items {
        total += u64::from(item.mass.0);
    }
    total
}

/// A text that begins with the number of a generated load, and its mass.
fn load_head(alloc: Global, number: u32, task: &Task) -> Result<Builder, NoMemory>
    requires { task.now ≡ generated_problem number }
    ensures { IfOk result (λ out. out ≡ text_of (load_lines number)) }
{
    let mut out = Builder::new(alloc);
    push_number_line(&mut out, b"GEN", u64::from(number))?;
    push_number_line(&mut out, b"mass", total_mass(task.items()))?;
    Ok(out)
}

/// Appends how many cuts a certificate has, and how many prefixes were looked at.
fn push_counts(out: &mut Builder, c: &Certificate) -> Result<(), NoMemory>
    ensures { OnOk result (out.new ≡ out.old ++ text_of (count_lines c.now)) }
{
    push_number_line(out, b"cuts", c.cuts.as_slice().len() as u64)?;
    push_number_line(out, b"expanded", u64::from(c.expanded))?;
    out.text(b"END\n")
}

fn plan_summary(
    alloc: Global,
    number: u32,
    task: &Task,
    proven: &Proven,
) -> Result<Vec<u8>, NoMemory>
    requires made { task.now ≡ generated_problem number }
    requires same { proven.now.task ≡ task.now }
    ensures { (path : List ℕ) → claimed proven.now.certificate.claim ≡ Some path
        → IfOk result (λ text. text.items ≡ plan_summary number path proven.now.certificate) }
{
    let mut out = load_head(alloc, number, task)?;
    out.text(b"PLAN\n")?;
    push_balance(&mut out, task, proven.path())?;
    push_counts(&mut out, proven.certificate())?;
    Ok(out.finish())
}

fn none_summary(
    alloc: Global,
    number: u32,
    task: &Task,
    no_plan: &NoPlan,
) -> Result<Vec<u8>, NoMemory>
    requires { task.now ≡ generated_problem number }
    ensures { IfOk result (λ text. text.items ≡ none_summary number no_plan.now.certificate) }
{
    let mut out = load_head(alloc, number, task)?;
    out.text(b"NONE\n")?;
    push_counts(&mut out, no_plan.certificate())?;
    Ok(out.finish())
}

fn budget_summary(alloc: Global, number: u32, task: &Task) -> Result<Vec<u8>, NoMemory>
    requires { task.now ≡ generated_problem number }
    ensures { IfOk result (λ text. text.items ≡ budget_summary number) }
{
    let mut out = load_head(alloc, number, task)?;
    push_number_line(&mut out, b"BUDGET", u64::from(USUAL_BUDGET))?;
    Ok(out.finish())
}

fn summary_text(
    alloc: Global,
    number: u32,
    task: &Task,
    answer: &Answer,
) -> Result<Vec<u8>, NoMemory>
    requires made { task.now ≡ generated_problem number }
    requires same { IfBest answer.now (λ proven. proven.task ≡ task.now) }
    ensures { IfOk result (λ text. IsSummaryText number answer.now text.items) }
{
    match answer {
        Answer::Best(proven) => plan_summary(alloc, number, task, proven),
        Answer::NoneFits(no_plan) => none_summary(alloc, number, task, no_plan),
        Answer::Budget(_) => budget_summary(alloc, number, task),
    }
}

/// That nothing fits is a summary like others.
fn summary_outcome(answer: &Answer) -> Outcome
    ensures { result ≡ summary_outcome answer.now }
{
    match answer {
        Answer::Best(_) | Answer::NoneFits(_) => Outcome::Done,
        Answer::Budget(_) => Outcome::OverBudget,
    }
}

/// The summary of the placement of the load that is made from a number, with the usual budget: its mass, its balance,
/// and how many cuts its certificate has. The only error is that memory ran out.
pub fn summary<P: Placing>(alloc: Global, number: u32, placing: &P) -> Result<Reply, NoMemory>
    ensures { IfOk result (λ reply. IsSummary number reply.outcome reply.text.items) }
{
    let task = generated_task(alloc, number)?;
    let answer = placing.place(alloc, &task, USUAL_BUDGET)?;
    has_good_evidence(&answer);
    Ok(Reply {
        outcome: summary_outcome(&answer),
        text: summary_text(alloc, number, &task, &answer)?,
    })
}
