//! Where the containers of a task may stand, ready to look up.

ghost use Rattle.std.specs.Prelude.{◌≡◌};
ghost use Rattle.hold_limits.specs.Enumeration.{is_accepted};
ghost use Rattle.hold_limits.specs.Faults.{IsLawfulHold};
ghost use Rattle.hold_partial.specs.Arrangement.{IsByInfluence};
ghost use Rattle.hold_reach.specs.Rules.{has_kind_at};
ghost use Rattle.position_set.specs.Sets.{Stands};
ghost use Rattle.hold_partial.specs.Tables.{IsDemand, AreDemands};

use crate::arrangement::{Ranked, ranks_of};
use arrayvec::ArrayVec;
use hold_limits::{Hold, Item, Task};
use hold_reach::accepts_kind_at;
use mass_units::Kg;
use position_set::PositionSet;

/// A container, and the positions that it could stand on in an empty hold.
#[derive(Clone, Copy, Debug)]
pub struct Demand {
    pub mass: Kg,
    /// The positions that accept its kind, by number.
    pub of_kind: PositionSet,
    /// The positions that accept it, by number.
    pub accepting: PositionSet,
    /// The positions that accept it, by their ranks in the order of influence.
    pub accepting_ranks: PositionSet,
    /// Its class of twins: the rank of the first of them, which may be itself, in branch order.
    pub twins: u8,
}

impl Default for Demand {
    fn default() -> Demand {
        Demand {
            mass: Kg(0),
            of_kind: PositionSet::empty(),
            accepting: PositionSet::empty(),
            accepting_ranks: PositionSet::empty(),
            twins: 0,
        }
    }
}

/// The demands of the containers, in branch order.
pub type Demands = ArrayVec<Demand, 60>;

fn positions_of_kind(hold: &Hold, item: &Item) -> PositionSet
    ensures { Stands result (has_kind_at hold.now item.now) }
{
    let mut set = PositionSet::empty();
    for number in 0..hold.position_count() {
        set = set.with_if(number, accepts_kind_at(hold, item, number));
    }
    set
}

fn accepting_positions(hold: &Hold, item: &Item) -> PositionSet
    ensures value { Stands result (λ q. is_accepted hold.now (item.now, q)) }
    ensures lawful { IsLawfulHold hold.now }
{
    let mut set = PositionSet::empty();
    for number in 0..hold.position_count() {
        set = set.with_if(number, hold.accepts_at(item, number));
    }
    set
}

fn demand_of(task: &Task, ranks: &[Ranked], item: &Item) -> Demand
    requires { IsByInfluence task.now.hold ranks.now }
    ensures { IsDemand task.now ranks.now item.now result }
{
    let hold = task.hold();
    let accepting = accepting_positions(hold, item);
    Demand {
        mass: item.mass,
        of_kind: positions_of_kind(hold, item),
        accepting,
        accepting_ranks: ranks_of(accepting, ranks),
        twins: task.first_twin(item),
    }
}

/// The demand of each container of branch order, over the positions by influence.
pub fn demands_of(task: &Task, ranks: &[Ranked]) -> Demands
    requires { IsByInfluence task.now.hold ranks.now }
    ensures { AreDemands task.now ranks.now result.items }
{
    let mut demands = Demands::new();
    for rank in 0..task.items().len() {
        demands.push(demand_of(task, ranks, task.at_rank(rank)));
    }
    demands
}
