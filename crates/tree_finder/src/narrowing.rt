//! Narrowing of choices, with what it looks up of a task.

ghost use Rattle.std.specs.Prelude.{◌≡◌};

use hold_choices::{Choices, Conflicts, narrowed};
use hold_limits::Task;
use std::marker::Model;

/// A task with what its containers take from one another.
#[derive(Drop)]
pub struct Narrowing<'a> {
    task: &'a Task,
    conflicts: Conflicts,
}

impl<'a> Model for Narrowing<'a> {
    ghost use Rattle.hold_limits.specs.Problem.{Problem};

    ghost Value = { Problem };

    ghost use Rattle.hold_choices.specs.Conflicts.{AreConflicts};

    ghost view = { λ n. n.task.now };

    ghost invariant = { λ n. AreConflicts n.task.now n.conflicts };
}

impl<'a> Narrowing<'a> {
    /// The task with what is looked up of it.
    pub fn of(task: &'a Task) -> Narrowing<'a>
        ensures { result ≡ task.now }
    {
        Narrowing {
            task,
            conflicts: Conflicts::of(task),
        }
    }

    /// The narrowed choice. None where a container then has no position left.
    pub fn opened(&self, choice: Choices) -> Option<Choices> {
        let open = narrowed(self.task, &self.conflicts, choice);
        if open.has_empty() { None } else { Some(open) }
    }
}
