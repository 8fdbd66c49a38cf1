//! The positions that each container may have.

ghost use Rattle.std.specs.Prelude.{◌≡◌, ◌↔◌, ◌≤◌, ◌==◌, ℕ, IsTrue, length, map, not, slice_get};
ghost use Rattle.std.specs.List.{filter, list_any, range_with_len};
ghost use Rattle.std.specs.Option.{option_map_or};
ghost use Rattle.hold_limits.specs.Enumeration.{is_accepted};
ghost use Rattle.position_set.specs.declared.set.PositionSet.{PositionSet};
ghost use Rattle.position_set.specs.Sets.{has, members};
ghost use Rattle.price_trees.specs.Narrowing.{full, fixed, cut, is_empty, HasEmpty};

use arrayvec::ArrayVec;
use hold_limits::{Hold, Item, Task};
use position_set::PositionSet;
use std::marker::Model;

/// For each container, in branch order, the positions that it may have.
#[derive(Debug, Drop)]
pub struct Choices {
    sets: ArrayVec<PositionSet, 60>,
}

impl Model for Choices {
    ghost use Rattle.std.specs.Prelude.{ℕ, List, map};
    ghost use Rattle.position_set.specs.Sets.{members};

    ghost Value = { List (List ℕ) };

    ghost view = { λ c. map members c.sets.items };
}

/// The positions that accept the container.
fn accepting(hold: &Hold, item: &Item) -> PositionSet
    ensures { members result ≡ filter (λ q. is_accepted hold.now (item.now, q))
        (range_with_len 0 (length hold.now.positions)) }
{
    let mut set = PositionSet::empty();
    for number in 0..hold.position_count() {
        set = set.with_if(number, hold.accepts_at(item, number));
    }
    set
}

/// The set of a number that a set has, or of none.
fn fixed_to(set: PositionSet, number: u8) -> PositionSet
    ensures { members result ≡ filter (λ p. number == p) (members set) }
{
    if number < 64 && set.contains(number) {
        PositionSet::of(number)
    } else {
        PositionSet::empty()
    }
}

/// The set of the number that a prefix has for this rank, as far as the set has it; the set itself past the prefix's end.
fn fixed_at(set: PositionSet, prefix: &[u8], rank: usize) -> PositionSet
    ensures { members result ≡ option_map_or (λ q. filter (λ p. q == p) (members set)) (slice_get prefix.now rank) (members set) }
{
    match prefix.get(rank) {
        Some(number) => fixed_to(set, *number),
        None => set,
    }
}

fn is_without(set: PositionSet) -> bool
    ensures { result ≡ is_empty (members set) }
{
    set.is_empty()
}

/// Whether one of the sets has no number.
fn is_one_without(sets: &[PositionSet]) -> bool
    ensures { result ≡ list_any (λ (set : PositionSet). is_empty (members set)) sets.now }
{
    sets.iter().any(|set| is_without(*set))
}

fn is_same(one: PositionSet, other: PositionSet) -> bool
    ensures { IsTrue result ↔ (members one ≡ members other) }
{
    one == other
}

/// Whether the lists have the same sets in the same order.
fn are_same(sets: &[PositionSet], others: &[PositionSet]) -> bool
    ensures { IsTrue result ↔ (map members sets.now ≡ map members others.now) }
{
    if sets.len() != others.len() {
        return false;
    }
    for rank in 0..sets.len() {
        if !is_same(sets[rank], others[rank]) {
            return false;
        }
    }
    true
}

impl Choices {
    /// The choice of these sets.
    pub fn of(sets: ArrayVec<PositionSet, 60>) -> Choices
        ensures { result ≡ map members sets.items }
    {
        Choices { sets }
    }

    /// The full choice: each container may have every position that accepts it.
    pub fn full(task: &Task) -> Choices
        ensures { result ≡ full task.now }
    {
        let mut sets = ArrayVec::new();
        for rank in 0..task.items().len() {
            sets.push(accepting(task.hold(), task.at_rank(rank)));
        }
        Choices { sets }
    }

    /// The positions of each container.
    pub fn sets(&self) -> &[PositionSet]
        ensures sets { map members result.now ≡ self.now }
        ensures few { length result.now ≤ 60 }
    {
        self.sets.as_slice()
    }

    /// The same choice.
    pub fn copy(&self) -> Choices
        ensures { result ≡ self.now }
    {
        match ArrayVec::try_from(self.sets.as_slice()) {
            Ok(sets) => Choices { sets },
            Err(_) => unreachable!(),
        }
    }

    /// The choice in which the first containers have these positions alone, as far as they may have them.
    pub fn fixed(&self, prefix: &[u8]) -> Choices
        ensures { result ≡ fixed prefix.now self.now }
    {
        let own = self.sets();
        let mut sets = ArrayVec::new();
        for rank in 0..own.len() {
            sets.push(fixed_at(own[rank], prefix, rank));
        }
        Choices { sets }
    }

    /// Whether a container has no position left.
    pub fn has_empty(&self) -> bool
        ensures { IsTrue result ↔ HasEmpty self.now }
    {
        is_one_without(self.sets())
    }

    /// Whether each container may have the same positions in both choices.
    pub fn same(&self, other: &Choices) -> bool
        ensures { IsTrue result ↔ (self.now ≡ other.now) }
    {
        are_same(self.sets(), other.sets())
    }

    /// The choice in which the container at this rank has only those of its positions that are among the names. A rank
    /// past the last container changes nothing.
    pub fn kept(&self, rank: usize, names: PositionSet) -> Choices
        ensures { result ≡ cut (has names) rank self.now }
    {
        let mut choice = self.copy();
        if let Some(set) = choice.sets.get_mut(rank) {
            *set = set.intersection(names);
        }
        choice
    }

    /// The choice in which the container at this rank has none of the names, only its other positions. A rank past the
    /// last container changes nothing.
    pub fn dropped(&self, rank: usize, names: PositionSet) -> Choices
        ensures { result ≡ cut (λ p. not (has names p)) rank self.now }
    {
        let mut choice = self.copy();
        if let Some(set) = choice.sets.get_mut(rank) {
            *set = set.difference(names);
        }
        choice
    }
}
