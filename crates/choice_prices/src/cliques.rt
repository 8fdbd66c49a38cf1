//! Cliques: positions of which any two exclude each other, so that they have one place together.

ghost use Rattle.std.specs.Prelude.{◌≡◌, ◌↔◌, ◌||◌, ◌==◌, IsTrue, All, IfNone};
ghost use Rattle.std.specs.List.{list_all};
ghost use Rattle.hold_limits.specs.Enumeration.{exclude};
ghost use Rattle.position_set.specs.Sets.{members};
ghost use Rattle.choice_prices.specs.Listing.{IsClique, is_clique, wrong_clique};

use hold_limits::{Hold, Task};
use position_set::PositionSet;

/// Whether the position excludes each other one of the set.
fn excludes_others(hold: &Hold, number: u8, set: PositionSet) -> bool
    ensures { result ≡ list_all (λ b. (number == b) || exclude hold.now number b) (members set) }
{
    let mut rest = set;
    while let Some(other) = rest.take_first() {
        if number != other && !hold.exclude_each_other(number, other) {
            return false;
        }
    }
    true
}

/// Whether any two positions of the set exclude each other.
fn is_clique_of(hold: &Hold, set: PositionSet) -> bool
    ensures { result ≡ is_clique hold.now (members set) }
{
    let mut rest = set;
    while let Some(number) = rest.take_first() {
        if !excludes_others(hold, number, set) {
            return false;
        }
    }
    true
}

/// Whether any two positions of the set exclude each other. A set of one position is a clique, and so is the empty one.
pub fn is_clique(task: &Task, set: PositionSet) -> bool
    ensures value { result ≡ is_clique task.now.hold (members set) }
    ensures meaning { IsTrue result ↔ IsClique task.now set }
{
    is_clique_of(task.hold(), set)
}

fn first_wrong(hold: &Hold, sets: &[PositionSet]) -> Option<usize>
    ensures { result ≡ wrong_clique hold.now sets.now }
{
    sets.iter().position(|set| !is_clique_of(hold, *set))
}

/// The place of the first set that is no clique.
pub fn wrong_clique(task: &Task, sets: &[PositionSet]) -> Option<usize>
    ensures value { result ≡ wrong_clique task.now.hold sets.now }
    ensures none { IfNone result (All (IsClique task.now) sets.now) }
{
    first_wrong(task.hold(), sets)
}
