ghost use Rattle.std.specs.Prelude.{◌≡◌};
ghost use Rattle.hold_limits.specs.Placement.{IsBest};
ghost use Rattle.best_plan.specs.Planned.{planned};

use hold_limits::{Path, Task};
use std::marker::Model;

/// A task with its best path.
#[derive(Debug, Drop)]
pub struct BestPlan {
    task: Task,
    path: Path,
}

impl Model for BestPlan {
    ghost use Rattle.best_plan.specs.Planned.{Planned, planned};
    ghost use Rattle.hold_limits.specs.Placement.{IsBest};

    ghost Value = { Planned };

    ghost view = { λ p. planned p.task p.path.items };

    ghost invariant = { λ p. IsBest p.task p.path.items };
}

impl BestPlan {
    /// The plan of a task by a path that is known to be the best, which is not searched for again.
    pub fn new(task: Task, path: Path) -> BestPlan
        requires best { IsBest task path.items }
        ensures { result ≡ planned task path.items }
    {
        BestPlan { task, path }
    }

    /// The task.
    pub fn task(&self) -> &Task
        ensures { result.now ≡ self.now.task }
    {
        &self.task
    }

    /// The path, which is the best one.
    pub fn path(&self) -> &Path
        ensures value { result.now.items ≡ self.now.path }
        ensures best { IsBest self.now.task self.now.path }
    {
        &self.path
    }
}
