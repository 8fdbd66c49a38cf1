//! A task as the search sees it.

use arrayvec::ArrayVec;
use finder_tables::{Cliques, Container, Limit, Load, Place, TickSpan, cliques_of, one, set_at};
use hold_choices::Choices;
use hold_limits::{Hold, Item, Limit as MassLimit, Task};
use position_set::PositionSet;

/// The rank of the first twin of a container, which may be itself.
fn first_twin(task: &Task, item: &Item) -> u8 {
    for rank in 0..task.items().len() {
        if task.at_rank(rank).is_twin_of(item) {
            return u8::try_from(rank).unwrap_or(0);
        }
    }
    0
}

fn containers_of(task: &Task) -> ArrayVec<Container, 60> {
    let full = Choices::full(task);
    let mut containers = ArrayVec::new();
    for rank in 0..task.items().len() {
        let item = task.at_rank(rank);
        let _ = containers.try_push(Container {
            mass: i64::from(item.mass.0),
            class: first_twin(task, item),
            accepted: set_at(full.sets(), rank),
        });
    }
    containers
}

/// The position with a number and those that it excludes.
fn taken_on(hold: &Hold, number: u8) -> PositionSet {
    let mut taken = one(number);
    for (first, second) in hold.excludes() {
        if *first == number {
            taken = taken.union(one(*second));
        }
        if *second == number {
            taken = taken.union(one(*first));
        }
    }
    taken
}

fn places_of(hold: &Hold) -> ArrayVec<Place, 64> {
    let mut places = ArrayVec::new();
    for number in 0..hold.position_count() {
        let _ = places.try_push(Place {
            influence: i64::from(hold.influence_at(number)),
            taken: taken_on(hold, number),
        });
    }
    places
}

/// The limit on these positions, with what the loose loads leave of the greatest mass.
fn limit_on(task: &Task, counted: PositionSet, discounted: PositionSet, most: u32) -> Limit {
    let mut limit = Limit {
        counted,
        discounted,
        room: i64::from(most),
    };
    for loose in task.loose() {
        let load = limit.load_on(loose.position, i64::from(loose.mass.0));
        limit.room = limit.room.saturating_sub(load);
    }
    limit
}

/// The positions whose mass counts for a limit.
fn covered_by(hold: &Hold, limit: &MassLimit<'_>) -> PositionSet {
    let mut covered = PositionSet::empty();
    for number in 0..hold.position_count() {
        if limit.covers(number) {
            covered = covered.union(one(number));
        }
    }
    covered
}

fn mass_limit(task: &Task, limit: &MassLimit<'_>) -> Limit {
    let counted = covered_by(task.hold(), limit);
    limit_on(task, counted, PositionSet::empty(), limit.most())
}

/// The positions on one side.
fn on_side(hold: &Hold, right: bool) -> PositionSet {
    let mut set = PositionSet::empty();
    for (number, side) in hold.sides() {
        if *side == right {
            set = set.union(one(*number));
        }
    }
    set
}

/// The limits in the order in which a certificate numbers them.
fn limits_of(task: &Task) -> ArrayVec<Limit, 194> {
    let hold = task.hold();
    let mut limits = ArrayVec::new();
    for limit in hold.combined() {
        let _ = limits.try_push(mass_limit(task, &MassLimit::Listed(limit)));
    }
    for limit in hold.cumulative() {
        let _ = limits.try_push(mass_limit(task, &MassLimit::Counted(limit)));
    }
    if let Some(lateral) = hold.lateral() {
        let (right, left) = (on_side(hold, true), on_side(hold, false));
        let _ = limits.try_push(limit_on(task, right, left, lateral.most.0));
        let _ = limits.try_push(limit_on(task, left, right, lateral.most.0));
    }
    limits
}

/// The moment of the loose loads, in ticks.
fn loose_moment(task: &Task) -> i64 {
    let mut moment: i64 = 0;
    for loose in task.loose() {
        let influence = i64::from(task.hold().influence_at(loose.position));
        moment = moment.saturating_add(influence.saturating_mul(i64::from(loose.mass.0)));
    }
    moment
}

/// The task as the search sees it.
pub fn load_for(task: &Task) -> Load {
    let base = task.base().0;
    let mut load = Load {
        containers: containers_of(task),
        places: places_of(task.hold()),
        limits: limits_of(task),
        cliques: Cliques::new(),
        loose: loose_moment(task),
        window: TickSpan {
            low: task.low().0,
            high: task.high().0,
        },
        ideal: TickSpan {
            low: task.ideal_low().0.saturating_sub(base),
            high: task.ideal_high().0.saturating_sub(base),
        },
    };
    load.cliques = cliques_of(&load);
    load
}
