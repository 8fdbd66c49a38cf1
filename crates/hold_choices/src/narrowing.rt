//! Narrowing: positions that other containers do not leave are taken from a choice, and no placement is lost by it.

ghost use Rattle.std.specs.Prelude.{◌≡◌, ◌≤◌, length, map};
ghost use Rattle.position_set.specs.Sets.{members};
ghost use Rattle.price_trees.specs.Prices.{candidates};
ghost use Rattle.price_trees.specs.Narrowing.{narrowed_once};
ghost use Rattle.hold_choices.specs.Conflicts.{AreConflicts};
ghost use Rattle.hold_choices.specs.Narrowed.{IsNarrowed};
ghost use Rattle.hold_choices.specs.Passing.{AreTakenByLater};

use crate::choices::Choices;
use crate::conflicts::Conflicts;
use crate::taken::Taken;
use arrayvec::ArrayVec;
use hold_limits::Task;
use position_set::PositionSet;

/// For each container what is taken from it by the later ones.
fn taken_by_later(task: &Task, conflicts: &Conflicts, sets: &[PositionSet]) -> [PositionSet; 60]
    requires conflicts { AreConflicts task.now conflicts.now }
    requires few { length sets.now ≤ length task.now.items }
    ensures { AreTakenByLater task.now (candidates task.now (map members sets.now)) result }
{
    let classes = conflicts.classes();
    let mut taken = Taken::nothing();
    let mut by_later = [PositionSet::empty(); 60];
    for rank in (0..sets.len()).rev() {
        let class = classes[rank];
        let set = sets[rank];
        by_later[rank] = taken.from_class(class);
        let from_twins = conflicts.taken_from_earlier_twins(task, set);
        taken.add(conflicts.taken_by(task, set), class, from_twins);
    }
    by_later
}

/// The sets without what is taken from each by the others.
fn left_by_others(task: &Task, conflicts: &Conflicts, sets: &[PositionSet]) -> Choices
    requires conflicts { AreConflicts task.now conflicts.now }
    requires few { length sets.now ≤ length task.now.items }
    ensures { result ≡ narrowed_once task.now (map members sets.now) }
{
    let classes = conflicts.classes();
    let by_later = taken_by_later(task, conflicts, sets);
    let mut taken = Taken::nothing();
    let mut left = ArrayVec::new();
    for rank in 0..sets.len() {
        let class = classes[rank];
        let set = sets[rank];
        left.push(set.difference(taken.from_class(class).union(by_later[rank])));
        let from_twins = conflicts.taken_from_later_twins(task, set);
        taken.add(conflicts.taken_by(task, set), class, from_twins);
    }
    Choices::of(left)
}

/// The choice without the positions that another container does not leave.
pub fn narrowed_once(task: &Task, conflicts: &Conflicts, choice: &Choices) -> Choices
    requires { AreConflicts task.now conflicts.now }
    ensures { result ≡ narrowed_once task.now choice.now }
{
    let sets = choice.sets();
    let count = sets.len().min(task.items().len());
    left_by_others(task, conflicts, &sets[..count])
}

/// What is left of the choice when pass after pass has taken the positions that another container does not leave, until
/// one takes nothing or a container has no position left.
pub fn narrowed(task: &Task, conflicts: &Conflicts, choice: Choices) -> Choices
    requires { AreConflicts task.now conflicts.now }
    ensures { IsNarrowed task.now choice result }
{
    let mut before = choice;
    let mut after = narrowed_once(task, conflicts, &before);
    while !after.has_empty() && !after.same(&before) {
        before = after;
        after = narrowed_once(task, conflicts, &before);
    }
    after
}
