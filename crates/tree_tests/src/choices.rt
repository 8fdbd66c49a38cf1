// Choices of small tasks, beside plain programs over lists of numbers.
use hold_choices::{Choices, Conflicts, is_missed, narrowed, narrowed_once};
use hold_limits::{ArrayVec, Hold, Item, Task, hold_index_of};
use position_set::PositionSet;
use problem_text::read_task;
use std::alloc::Global;
use std::test::Fail;

// Twins of two kinds, which take turns in branch order, and a lighter container; 12 excludes 13, and 41 excludes 42.
const TASK: &[u8] = b"TASK 1
position 11 1 -6 AKE 1500 PKC 1500
position 12 1 -3 AKE 1500 PKC 1500
position 13 1 -1 AKE 1500 PKC 1500
position 41 4 2 AKE 1500
position 42 4 5 AKE 1500 PKC 9
bulk 51 5 7
exclude 12 13
exclude 42 41
item AKE10001XX 10
item PKC10002XX 10
item AKE10003XX 10
item AKE10004XX 6
item PKC10005XX 10
loose 51 4
base 50.00000
window -100.00000 100.00000
ideal 50.00000 50.00000
END
";

// For each container in branch order the numbers of its positions.
type Lists = Vec<Vec<u8>>;

fn item(task: &Task, rank: usize) -> Option<&Item> {
    if rank < task.items().len() {
        Some(task.at_rank(rank))
    } else {
        None
    }
}

// The numbers of a set, by asking for each.
fn list_of(alloc: Global, set: PositionSet) -> Result<Vec<u8>, Fail> {
    let mut list = Vec::new(alloc);
    for number in 0..64 {
        if set.contains(number) {
            list.push(number)?;
        }
    }
    Ok(list)
}

fn lists_of(alloc: Global, choice: &Choices) -> Result<Lists, Fail> {
    let mut lists = Vec::new(alloc);
    for set in choice.sets() {
        lists.push(list_of(alloc, *set)?)?;
    }
    Ok(lists)
}

// Whether a container with these positions leaves the number to all others.
fn leaves(hold: &Hold, list: &[u8], number: u8) -> bool {
    match list {
        [only] => *only != number && !hold.exclude_each_other(*only, number),
        _ => true,
    }
}

// Whether the container of one rank, with these positions, leaves the number to that of another.
fn leaves_to(task: &Task, other: usize, list: &[u8], rank: usize, number: u8) -> bool {
    let twins = match (item(task, other), item(task, rank)) {
        (Some(first), Some(second)) => first.is_twin_of(second),
        _ => false,
    };
    let is_risen = |place: &u8| {
        if other < rank {
            *place < number
        } else {
            number < *place
        }
    };
    other == rank || leaves(task.hold(), list, number) && (!twins || list.iter().any(is_risen))
}

fn is_left(task: &Task, lists: &[Vec<u8>], rank: usize, number: u8) -> bool {
    for (other, list) in lists.iter().enumerate() {
        if !leaves_to(task, other, list.as_slice(), rank, number) {
            return false;
        }
    }
    true
}

// One pass, number by number.
fn narrowed_by_trial(alloc: Global, task: &Task, lists: &[Vec<u8>]) -> Result<Lists, Fail> {
    let mut left = Vec::new(alloc);
    for (rank, list) in lists.iter().enumerate() {
        let mut kept = Vec::new(alloc);
        for number in list {
            if is_left(task, lists, rank, *number) {
                kept.push(*number)?;
            }
        }
        left.push(kept)?;
    }
    Ok(left)
}

// The list after pass upon pass, until one takes nothing or leaves a container without a position.
fn narrowed_to_the_end(alloc: Global, task: &Task, lists: Lists) -> Result<Lists, Fail> {
    let mut before = lists;
    for _ in 0..100 {
        let after = narrowed_by_trial(alloc, task, before.as_slice())?;
        if after == before || after.iter().any(|list| list.is_empty()) {
            return Ok(after);
        }
        before = after;
    }
    Err("a pass too many")?
}

fn moment(task: &Task, rank: usize, number: u8) -> i64 {
    match item(task, rank) {
        Some(item) => {
            i64::from(item.mass.0).saturating_mul(i64::from(task.hold().influence_at(number)))
        }
        None => 0,
    }
}

fn is_multiple(number: i64, divisor: i64) -> bool {
    match number.checked_rem(divisor) {
        Some(rest) => rest == 0,
        None => number == 0,
    }
}

fn first_of(list: &[u8]) -> u8 {
    match list.first() {
        Some(number) => *number,
        None => 0,
    }
}

// Whether the moments of the container of a rank differ by multiples of the divisor.
fn leave_one(task: &Task, rank: usize, list: &[u8], divisor: i64) -> bool {
    let first = moment(task, rank, first_of(list));
    list.iter().all(|number| is_multiple(moment(task, rank, *number).wrapping_sub(first), divisor))
}

fn all_leave_one(task: &Task, lists: &[Vec<u8>], divisor: i64) -> bool {
    for (rank, list) in lists.iter().enumerate() {
        if !leave_one(task, rank, list.as_slice(), divisor) {
            return false;
        }
    }
    true
}

fn first_index(task: &Task, lists: &[Vec<u8>]) -> Result<i64, Fail> {
    let mut path: ArrayVec<u8, 60> = ArrayVec::new();
    for list in lists {
        let _ = path.try_push(first_of(list.as_slice()));
    }
    if path.len() > task.items().len() {
        return Err("more lists than containers")?;
    }
    Ok(hold_index_of(task, path.as_slice()).0)
}

fn no_tick_leaves(low: i64, high: i64, index: i64, divisor: i64) -> bool {
    for tick in low..=high {
        if is_multiple(tick.wrapping_sub(index), divisor) {
            return false;
        }
    }
    true
}

// Whether the remainders by some divisor show it, trying each up to the greatest difference.
fn is_missed_by_trial(task: &Task, low: i64, high: i64, lists: &[Vec<u8>]) -> Result<bool, Fail> {
    let index = first_index(task, lists)?;
    for divisor in 0..=165 {
        if all_leave_one(task, lists, divisor) && no_tick_leaves(low, high, index, divisor) {
            return Ok(true);
        }
    }
    Ok(false)
}

// Numbers that look like chance, always the same.
fn next_of(seed: u64) -> u64 {
    seed.wrapping_mul(6_364_136_223_846_793_005)
        .wrapping_add(1_442_695_040_888_963_407)
}

fn names_of(bits: u64) -> PositionSet {
    let mut names = PositionSet::empty();
    for number in 0..6 {
        names = names.with_if(number, bits >> number & 1 == 1);
    }
    names
}

// A choice with some of the positions of each container.
fn some_choice(task: &Task, seed: u64) -> Choices {
    let mut choice = Choices::full(task);
    let mut bits = next_of(seed);
    for rank in 0..task.items().len() {
        bits = next_of(bits);
        choice = choice.kept(rank, names_of(bits >> 33));
    }
    choice
}

// The numbers of the positions of each container.
fn text_of(alloc: Global, choice: &Choices) -> Result<String, Fail> {
    let lists = lists_of(alloc, choice)?;
    Ok(format!(in alloc; "{:?}", lists.as_slice())?)
}

#[test]
fn the_full_choice_is_cut_and_fixed(rt: HostRuntime) -> Result<(), Fail> {
    let task = read_task(rt.alloc(), TASK)?;
    let full = Choices::full(&task);
    assert_eq!(rt;
        text_of(rt.alloc(), &full)?.as_str(),
        "[[0, 1, 2, 3, 4], [0, 1, 2], [0, 1, 2, 3, 4], [0, 1, 2], [0, 1, 2, 3, 4]]"
    );
    let cut = full.kept(0, names_of(0b101)).dropped(1, names_of(0b101));
    assert_eq!(rt;
        text_of(rt.alloc(), &cut)?.as_str(),
        "[[0, 2], [1], [0, 1, 2, 3, 4], [0, 1, 2], [0, 1, 2, 3, 4]]"
    );
    let fixed = full.fixed(&[2, 0, 9]).copy();
    assert_eq!(rt;
        text_of(rt.alloc(), &fixed)?.as_str(),
        "[[2], [0], [], [0, 1, 2], [0, 1, 2, 3, 4]]"
    );
    Ok(())
}

#[test]
fn choices_are_empty_or_the_same(rt: HostRuntime) -> Result<(), Fail> {
    let task = read_task(rt.alloc(), TASK)?;
    let full = Choices::full(&task);
    let cut = full.kept(0, names_of(0b101));
    assert!(rt; !cut.has_empty() && !cut.same(&full));
    assert!(rt; full.fixed(&[2, 0, 9]).copy().has_empty());
    assert!(rt; full.kept(5, names_of(0)).same(&full));
    Ok(())
}

// Whether a pass over a choice is the one number by number, and whether it takes something.
fn pass_of(alloc: Global, task: &Task, seed: u64) -> Result<(bool, bool), Fail> {
    let conflicts = Conflicts::of(task);
    let choice = some_choice(task, seed);
    let lists = lists_of(alloc, &choice)?;
    let left = lists_of(alloc, &narrowed_once(task, &conflicts, &choice))?;
    let by_trial = narrowed_by_trial(alloc, task, lists.as_slice())?;
    Ok((left == by_trial, left != lists))
}

// The first choice over which a pass is another one, and how many passes take something.
fn passes(alloc: Global, task: &Task) -> Result<(Option<u64>, u64), Fail> {
    let mut taken: u64 = 0;
    for seed in 0..300 {
        let (is_right, takes) = pass_of(alloc, task, seed)?;
        if !is_right {
            return Ok((Some(seed), taken));
        }
        taken = taken.saturating_add(u64::from(takes));
    }
    Ok((None, taken))
}

#[test]
fn a_pass_takes_what_the_others_do_not_leave(rt: HostRuntime) -> Result<(), Fail> {
    let task = read_task(rt.alloc(), TASK)?;
    let (wrong, taken) = passes(rt.alloc(), &task)?;
    assert_eq!(rt; wrong, None);
    assert!(rt; taken > 100 && taken < 300, "{taken} passes");
    Ok(())
}

// Whether narrowing a choice ends as number by number, and whether it takes more than one pass.
fn end_of(alloc: Global, task: &Task, seed: u64) -> Result<(bool, bool), Fail> {
    let conflicts = Conflicts::of(task);
    let choice = some_choice(task, seed);
    let end = narrowed_to_the_end(alloc, task, lists_of(alloc, &choice)?)?;
    let once = narrowed_once(task, &conflicts, &choice);
    let last = narrowed(task, &conflicts, choice);
    Ok((lists_of(alloc, &last)? == end, !last.same(&once)))
}

// The first choice whose narrowing ends otherwise, and how many take more than one pass.
fn ends(alloc: Global, task: &Task) -> Result<(Option<u64>, u64), Fail> {
    let mut longer: u64 = 0;
    for seed in 0..300 {
        let (is_right, is_longer) = end_of(alloc, task, seed)?;
        if !is_right {
            return Ok((Some(seed), longer));
        }
        longer = longer.saturating_add(u64::from(is_longer));
    }
    Ok((None, longer))
}

#[test]
fn narrowing_goes_on_to_its_end(rt: HostRuntime) -> Result<(), Fail> {
    let task = read_task(rt.alloc(), TASK)?;
    let (wrong, longer) = ends(rt.alloc(), &task)?;
    assert_eq!(rt; wrong, None);
    assert!(rt; longer > 10, "{longer} of more than one pass");
    Ok(())
}

// How many of four spans the remainders of a choice miss, where that is as by trial.
fn missed_of(alloc: Global, task: &Task, seed: u64) -> Result<u64, Fail> {
    let choice = some_choice(task, seed).kept(1, names_of(seed));
    let lists = lists_of(alloc, &choice)?;
    let mut missed: u64 = 0;
    for high in [-40, -37, -3, 20] {
        let is_missed = is_missed(task, -40, high, &choice);
        if is_missed != is_missed_by_trial(task, -40, high, lists.as_slice())? {
            return Err("a trial finds otherwise".into());
        }
        missed = missed.saturating_add(u64::from(is_missed));
    }
    Ok(missed)
}

#[test]
fn remainders_are_missed_as_by_trial(rt: HostRuntime) -> Result<(), Fail> {
    let task = read_task(rt.alloc(), TASK)?;
    let mut missed: u64 = 0;
    for seed in 0..100 {
        missed = missed.saturating_add(missed_of(rt.alloc(), &task, seed)?);
    }
    assert!(rt; missed > 20 && missed < 380, "{missed} missed");
    Ok(())
}
