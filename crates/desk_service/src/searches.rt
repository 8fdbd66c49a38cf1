//! Searches for a plan of the hold. A search has no counter, so the office goes on while it runs.

ghost use Rattle.std.specs.Prelude.{◌≡◌, IfOk};
ghost use Rattle.desk_service.specs.Searches.{Finds, plan_in};

use base_words::NoMemory;
use best_plan::BestPlan;
use cert_checker::Proven;
use hold_limits::Task;
use keeper::Bytes;
use placer::{Answer, Placing, write_answer};
use std::alloc::Global;
use task_answers::{BestAnswer, best_answer};

/// How a plan is searched for.
#[derive(Clone, Copy, Debug, PartialEq, Eq)]
pub enum Search {
    /// By the best-first search, with this budget.
    Within(u32),
    /// By trees with so many looks, and by the best-first search where they do not decide the task.
    ByTrees(u32),
}

/// A plan that a search found, with what proves that it is the best.
#[derive(Debug, Drop)]
pub enum FoundPlan {
    Certified(Proven),
    Best(BestPlan),
}

/// What a search found: a plan or none, and the text that answers it.
#[derive(Debug, Drop)]
pub struct Found {
    pub plan: Option<FoundPlan>,
    pub text: Bytes,
}

/// The plan that an answer of the best-first search has, if it has one.
fn plan_in(answer: Answer) -> Option<FoundPlan>
    ensures { result ≡ plan_in answer }
{
    match answer {
        Answer::Best(plan) => Some(FoundPlan::Certified(plan)),
        Answer::NoneFits(_nothing) => None,
        Answer::Budget(_) => None,
    }
}

/// Searches with a budget.
fn find_within<P: Placing>(
    alloc: Global,
    task: &Task,
    budget: u32,
    placing: &P,
) -> Result<Found, NoMemory>
    ensures { IfOk result (λ found. Finds (Search.Within budget) task.now found.plan found.text) }
{
    let answer = placing.place(alloc, task, budget)?;
    let text = Bytes::from(write_answer(alloc, task, &answer)?);
    Ok(Found {
        plan: plan_in(answer),
        text,
    })
}

/// Searches by trees.
fn find_by_trees<P: Placing>(
    alloc: Global,
    task: Task,
    looks: u32,
    placing: &P,
) -> Result<Found, NoMemory>
    ensures { IfOk result (λ found. Finds (Search.ByTrees looks) task found.plan found.text) }
{
    let BestAnswer { text, path } = best_answer(alloc, &task, looks, placing)?;
    let text = Bytes::from(text);
    match path {
        Some(path) => Ok(Found {
            plan: Some(FoundPlan::Best(BestPlan::new(task, path))),
            text,
        }),
        None => Ok(Found { plan: None, text }),
    }
}

/// Searches for a plan of a task. The only error is that memory ran out.
pub fn find_plan<P: Placing>(
    alloc: Global,
    task: Task,
    search: Search,
    placing: &P,
) -> Result<Found, NoMemory>
    ensures { IfOk result (λ found. Finds search task found.plan found.text) }
{
    match search {
        Search::Within(budget) => find_within(alloc, &task, budget, placing),
        Search::ByTrees(looks) => find_by_trees(alloc, task, looks, placing),
    }
}
