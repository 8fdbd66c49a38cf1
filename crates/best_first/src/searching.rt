//! The search for the best path of a task: best first through its viable prefixes.

ghost use Rattle.std.specs.Prelude.{IfNone, IfOk, IfSome};
ghost use Rattle.certificate.specs.Good.{AreAtMost};
ghost use Rattle.best_first.specs.Promising.{AreMoreThan, IsFoundFor, IsPromising};

use crate::explorer::TaskExplorer;
use crate::horizon::Horizon;
use base_words::NoMemory;
use certificate::Claim;
use hold_limits::Task;
use hold_partial::Partial;
use path_search::Found;
use std::alloc::Global;

/// Finds the best path of the task, by these bounds. None where the promising prefixes number more than the budget.
pub fn search<'a, H: Horizon<'a> + Drop>(
    alloc: Global,
    task: &'a Task,
    horizon: H,
    budget: u32,
) -> Result<Option<Found>, NoMemory>
    requires { H.serves horizon task.now }
    ensures found { IfOk result (λ found. IfSome found (IsFoundFor task.now (H.has_bound task.now))) }
    ensures enough { IfOk result (λ found.
        IfSome found (λ _. AreAtMost (IsPromising task.now (H.has_bound task.now)) budget)) }
    ensures over { IfOk result (λ found.
        IfNone found (AreMoreThan (IsPromising task.now (H.has_bound task.now)) budget)) }
{
    H::laws();
    let _lawful = task.items();
    let Ok(partial) = Partial::new(task) else {
        return Ok(Some(Found {
            claim: Claim::NoneFits,
            cuts: Vec::new(alloc),
            expanded: 0,
        }));
    };
    path_search::search(alloc, TaskExplorer { partial, horizon }, budget)
}
