// What prices say of a choice, by loops that follow the definitions. Sums saturate.
use hold_limits::{Hold, Task};
use position_set::PositionSet;
use tree_certificate::{End, PriceList};

fn has(set: PositionSet, number: u8) -> bool {
    number < 64 && set.contains(number)
}

fn any_has(sets: &[PositionSet], number: u8) -> bool {
    sets.iter().any(|set| has(*set, number))
}

fn counted_from(end: End, index: i128) -> i128 {
    match end {
        End::Low => index,
        End::High => index.saturating_neg(),
    }
}

fn if_so(condition: bool, amount: i128) -> i128 {
    if condition { amount } else { 0 }
}

// What a mass on a position takes of the limit with this number.
fn taken(hold: &Hold, number: usize, mass: i128, position: u8) -> i128 {
    if let Some(limit) = hold.combined().get(number) {
        let listed = limit
            .places
            .as_slice()
            .iter()
            .any(|place| *place == position);
        return if_so(listed, mass);
    }
    let number = number.saturating_sub(hold.combined().len());
    if let Some(limit) = hold.cumulative().get(number) {
        let ahead = limit.forward && position <= limit.place;
        let behind = !limit.forward && limit.place <= position;
        return if_so(ahead || behind, mass);
    }
    let right = mass.saturating_mul(i128::from(hold.side_at(position)));
    if number == hold.cumulative().len() {
        right
    } else {
        right.saturating_neg()
    }
}

// How much the limit with this number allows.
fn most(hold: &Hold, number: usize) -> i128 {
    if let Some(limit) = hold.combined().get(number) {
        return i128::from(limit.most.0);
    }
    if let Some(limit) = hold
        .cumulative()
        .get(number.saturating_sub(hold.combined().len()))
    {
        return i128::from(limit.most.0);
    }
    match hold.lateral() {
        Some(limit) => i128::from(limit.most.0),
        None => 0,
    }
}

// How much the loose loads leave of it.
fn room(task: &Task, number: usize) -> i128 {
    let mut room = most(task.hold(), number);
    for load in task.loose() {
        let taken = taken(task.hold(), number, i128::from(load.mass.0), load.position);
        room = room.saturating_sub(taken);
    }
    room
}

fn clique(cliques: &[PositionSet], number: u32) -> PositionSet {
    match cliques.get(number as usize) {
        Some(clique) => *clique,
        None => PositionSet::empty(),
    }
}

fn priced(price: u64, amount: i128) -> i128 {
    i128::from(price).saturating_mul(amount)
}

// The prices of all that a mass takes on a position.
fn prices_on(hold: &Hold, cliques: &[PositionSet], list: &PriceList, mass: i128, q: u8) -> i128 {
    let mut sum: i128 = 0;
    for p in list.positions.as_slice() {
        sum = sum.saturating_add(priced(p.price, if_so(p.of == u32::from(q), 1)));
    }
    for p in list.limits.as_slice() {
        sum = sum.saturating_add(priced(p.price, taken(hold, p.of as usize, mass, q)));
    }
    for p in list.cliques.as_slice() {
        sum = sum.saturating_add(priced(p.price, if_so(has(clique(cliques, p.of), q), 1)));
    }
    sum
}

/// What a mass costs on a position.
pub fn plain_cost(
    task: &Task,
    cliques: &[PositionSet],
    list: &PriceList,
    mass: u32,
    q: u8,
) -> i128 {
    let hold = task.hold();
    let mass = i128::from(mass);
    let moment = mass.saturating_mul(i128::from(hold.influence_at(q)));
    counted_from(list.end, moment).saturating_add(prices_on(hold, cliques, list, mass, q))
}

fn plain_least(
    task: &Task,
    cliques: &[PositionSet],
    list: &PriceList,
    mass: u32,
    set: PositionSet,
) -> i128 {
    let mut least = None;
    for q in 0..64 {
        if has(set, q) {
            let cost = plain_cost(task, cliques, list, mass, q);
            least = Some(match least {
                Some(least) if least <= cost => least,
                _ => cost,
            });
        }
    }
    least.unwrap_or(0)
}

// Whether the sets have a position of the clique.
fn met(clique: PositionSet, sets: &[PositionSet]) -> bool {
    for q in 0..64 {
        if has(clique, q) && any_has(sets, q) {
            return true;
        }
    }
    false
}

fn plain_worth(
    task: &Task,
    cliques: &[PositionSet],
    list: &PriceList,
    sets: &[PositionSet],
) -> i128 {
    let mut sum: i128 = 0;
    for p in list.positions.as_slice() {
        let there = p.of < 64 && any_has(sets, p.of as u8);
        sum = sum.saturating_add(priced(p.price, if_so(there, 1)));
    }
    for p in list.limits.as_slice() {
        sum = sum.saturating_add(priced(p.price, room(task, p.of as usize)));
    }
    for p in list.cliques.as_slice() {
        let there = met(clique(cliques, p.of), sets);
        sum = sum.saturating_add(priced(p.price, if_so(there, 1)));
    }
    sum
}

// The mass of the container at a rank, and 0 past the last.
pub fn mass_at(task: &Task, rank: usize) -> u32 {
    if rank < task.items().len() {
        task.at_rank(rank).mass.0
    } else {
        0
    }
}

/// The value over a choice.
pub fn plain_value(
    task: &Task,
    cliques: &[PositionSet],
    list: &PriceList,
    sets: &[PositionSet],
) -> i128 {
    let mut moment: i128 = 0;
    for load in task.loose() {
        let influence = i128::from(task.hold().influence_at(load.position));
        moment = moment.saturating_add(i128::from(load.mass.0).saturating_mul(influence));
    }
    let mut sum = counted_from(list.end, moment);
    for (rank, set) in sets.iter().enumerate().take(task.items().len()) {
        sum = sum.saturating_add(plain_least(task, cliques, list, mass_at(task, rank), *set));
    }
    sum.saturating_sub(plain_worth(task, cliques, list, sets))
}

/// The positions of a set that cost a mass at most so much more than the least.
pub fn plain_cheap(
    task: &Task,
    cliques: &[PositionSet],
    list: &PriceList,
    slack: i128,
    mass: u32,
    set: PositionSet,
) -> PositionSet {
    let least = plain_least(task, cliques, list, mass, set);
    let mut cheap = PositionSet::empty();
    for q in 0..64 {
        let over = plain_cost(task, cliques, list, mass, q).saturating_sub(least);
        if has(set, q) && over <= slack {
            cheap = cheap.with(q);
        }
    }
    cheap
}
