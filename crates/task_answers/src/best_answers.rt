//! What a desk answers to the question for the best plan.

ghost use Rattle.std.specs.Prelude.{◌≡◌, ◌++◌, ℕ, List, Some, None, IfOk, OnOk, IfSome, codes};
ghost use Rattle.std.specs.Option.{option_map};
ghost use Rattle.hold_limits.specs.Problem.{Problem};
ghost use Rattle.hold_limits.specs.Placement.{IsBest, IsSound};
ghost use Rattle.cert_checker.specs.Claims.{HasNoPlacement};
ghost use Rattle.placer.specs.AnswerText.{claim_text};
ghost use Rattle.task_answers.specs.Found.{IsBestAnswer, short_text};

use crate::limits::LONGEST_ANSWER;
use crate::tree_jobs::find_by_trees;
use base_words::NoMemory;
use hold_limits::{Path, Task};
use placer::Placing;
use plan_text::push_plan;
use std::alloc::Global;
use telex::Builder;

/// An answer to the question for the best plan: the text, and the path where it is a plan.
#[derive(Debug, Drop)]
pub struct BestAnswer {
    pub text: Vec<u8>,
    pub path: Option<Path>,
}

/// Appends the plan with this path, or `NONE`.
fn push_claim(out: &mut Builder, task: &Task, path: Option<&Path>) -> Result<(), NoMemory>
    requires { IfSome path (λ path. IsSound task.now path.now.items) }
    ensures { OnOk result (out.new ≡ out.old ++ claim_text task.now (option_map (λ path. path.now.items) path.entry)) }
{
    match path {
        Some(path) => push_plan(out, task, path),
        None => out.text(b"NONE\n"),
    }
}

/// The text of an answer without its certificate.
fn short_text(alloc: Global, task: &Task, path: Option<&Path>) -> Result<Vec<u8>, NoMemory>
    requires { IfSome path (λ path. IsSound task.now path.now.items) }
    ensures { IfOk result (λ text. text.items ≡ short_text task.now (option_map (λ path. path.now.items) path.entry)) }
{
    let mut out = Builder::new(alloc);
    push_claim(&mut out, task, path)?;
    out.text(b"END\n")?;
    Ok(out.finish())
}

/// The best plan of a task, by so many looks at trees and by the best-first search behind them, as the command `best`
/// answers. A text of more than 4,194,304 bytes is left without its certificate: the lines of the plan and `END`, or
/// `NONE` and `END`. The only error is that memory ran out.
pub fn best_answer<P: Placing>(
    alloc: Global,
    task: &Task,
    looks: u32,
    placing: &P,
) -> Result<BestAnswer, NoMemory>
    ensures { IfOk result (λ answer. IsBestAnswer task.now looks (option_map (λ path. path.items) answer.path)
        answer.text.items) }
{
    let found = find_by_trees(alloc, task, looks, placing)?;
    if found.reply.text.len() <= LONGEST_ANSWER {
        return Ok(BestAnswer {
            text: found.reply.text,
            path: found.path,
        });
    }
    let text = short_text(alloc, task, found.path.as_ref())?;
    Ok(BestAnswer {
        text,
        path: found.path,
    })
}

/// What an answer to the question for the best plan says is so. Its path is the best; and where it has none and its text
/// begins with `NONE`, no path is admissible. The call does nothing: it is there for its contract.
pub fn best_answer_laws()
    ensures plan { (t : Problem) (looks : ℕ) (path text : List ℕ) → IsBestAnswer t looks (Some path) text → IsBest t path }
    ensures none { (t : Problem) (looks : ℕ) (rest : List ℕ) → IsBestAnswer t looks None (codes "NONE" ++ rest)
        → HasNoPlacement t }
{}
