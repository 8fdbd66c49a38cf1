//! What containers take from one another, ready to look up.

ghost use Rattle.std.specs.Prelude.{◌≡◌, ◌<◌, ◌≤◌, ◌&&◌, ◌||◌, ◌==◌, nat_lt, nat_le, ℕ, length, map, not, slice_index_or};
ghost use Rattle.std.specs.List.{list_any};
ghost use Rattle.hold_limits.specs.BranchOrder.{ordered};
ghost use Rattle.hold_limits.specs.Enumeration.{exclude};
ghost use Rattle.hold_limits.specs.Twins.{first_twin};
ghost use Rattle.position_set.specs.declared.set.PositionSet.{PositionSet};
ghost use Rattle.position_set.specs.Sets.{has, members};
ghost use Rattle.price_trees.specs.Narrowing.{leaves};
ghost use Rattle.hold_choices.specs.Conflicts.{AreConflicts};

use arrayvec::ArrayVec;
use hold_limits::{Hold, Item, Task};
use position_set::PositionSet;

/// What a container on each position takes from all others, and which containers are twins. It is made once for a task.
#[derive(Debug, Drop)]
pub struct Conflicts {
    /// For each position itself and those that it excludes.
    taken: [PositionSet; 64],
    /// For each number all numbers up to it.
    up_to: [PositionSet; 64],
    /// For each container, in branch order, its class of twins: the rank of the first of them.
    classes: ArrayVec<u8, 60>,
}

fn each_alone() -> [PositionSet; 64]
    ensures { (q p : ℕ) (d : PositionSet) → q < 64 → has (slice_index_or result q d) p ≡ (p == q) }
{
    let mut sets = [PositionSet::empty(); 64];
    for number in 0..64 {
        sets[usize::from(number)] = PositionSet::of(number);
    }
    sets
}

/// Adds a number to the set at a place.
fn add_at(sets: &mut [PositionSet; 64], place: u8, number: u8)
    requires place { place < 64 }
    requires number { number < 64 }
    ensures { (q p : ℕ) (d : PositionSet) → q < 64 → has (slice_index_or sets.new q d) p
        ≡ (has (slice_index_or sets.old q d) p || ((place == q) && (number == p))) }
{
    let place = usize::from(place);
    sets[place] = sets[place].with(number);
}

/// Each position with those that it excludes.
fn taken_on_each(hold: &Hold) -> [PositionSet; 64]
    ensures { (q p : ℕ) (d : PositionSet) → q < 64 → p < 64
        → has (slice_index_or result q d) p ≡ ((q == p) || exclude hold.now q p) }
{
    let mut taken = each_alone();
    for (one, other) in hold.excludes() {
        add_at(&mut taken, *one, *other);
        add_at(&mut taken, *other, *one);
    }
    taken
}

fn up_to_each() -> [PositionSet; 64]
    ensures { (q p : ℕ) (d : PositionSet) → q < 64 → p < 64
        → has (slice_index_or result q d) p ≡ nat_le p q }
{
    let mut up_to = [PositionSet::empty(); 64];
    let mut numbers = PositionSet::empty();
    for number in 0..64 {
        numbers = numbers.with(number);
        up_to[usize::from(number)] = numbers;
    }
    up_to
}

fn classes_of(task: &Task) -> ArrayVec<u8, 60>
    ensures { result.items ≡ map (first_twin task.now) (ordered task.now.items) }
{
    let mut classes = ArrayVec::new();
    for rank in 0..task.items().len() {
        classes.push(task.first_twin(task.at_rank(rank)));
    }
    classes
}

impl Conflicts {
    /// The conflicts of a task.
    pub fn of(task: &Task) -> Conflicts
        ensures { AreConflicts task.now result }
    {
        Conflicts {
            taken: taken_on_each(task.hold()),
            up_to: up_to_each(),
            classes: classes_of(task),
        }
    }

    /// For each container, in branch order, its class of twins.
    pub(crate) fn classes(&self) -> &[u8]
        ensures value { result.now ≡ self.now.classes.items }
        ensures few { length result.now ≤ 60 }
    {
        self.classes.as_slice()
    }

    /// What a container with these positions takes from all others: where it has just one, that and those that it
    /// excludes.
    pub(crate) fn taken_by(&self, task: &Task, set: PositionSet) -> PositionSet
        requires { AreConflicts task.now self.now }
        ensures { (p : ℕ) → p < 64 → has result p ≡ not (leaves task.now.hold (members set) p) }
    {
        match set.only() {
            Some(number) => self.taken[usize::from(number)],
            None => PositionSet::empty(),
        }
    }

    /// What a container with these positions takes from its later twins: all that is above none of them.
    pub(crate) fn taken_from_later_twins(&self, task: &Task, set: PositionSet) -> PositionSet
        requires { AreConflicts task.now self.now }
        ensures { (p : ℕ) → p < 64 → has result p ≡ not (list_any (λ q. nat_lt q p) (members set)) }
    {
        match set.first() {
            Some(least) => self.up_to[usize::from(least)],
            None => self.up_to[63],
        }
    }

    /// What a container with these positions takes from its earlier twins: all that is below none of them.
    pub(crate) fn taken_from_earlier_twins(&self, task: &Task, set: PositionSet) -> PositionSet
        requires { AreConflicts task.now self.now }
        ensures { (p : ℕ) → p < 64 → has result p ≡ not (list_any (λ q. nat_lt p q) (members set)) }
    {
        let all = self.up_to[63];
        match set.last() {
            Some(greatest) => all
                .difference(self.up_to[usize::from(greatest)])
                .with(greatest),
            None => all,
        }
    }
}
