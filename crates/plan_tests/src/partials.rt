// Small tasks with twins, sides, excluding pairs and limits that are met exactly: the partial placement beside the plain
// programs, at every prefix.
ghost use Rattle.std.specs.Prelude.{◌<◌, ◌≡◌, length};

use crate::pass;
use crate::plain_reach::{
    bound_of, falls_at, is_position_open, is_prefix_viable, lateral_reach_of, reach_of,
    wide_bound_of, wide_reach_of,
};
use crate::plain_rules::broken_rule;
use crate::small_tasks::task_from;
use case_rows::Subject;
use hold_limits::Task;
use hold_partial::{Partial, advances};
use hold_reach::broken_limit;
use std::alloc::Global;
use std::test::Fail;

/// Four container positions, numbered 0 to 3, of which 0 and 1 are an excluding pair, and the bulk position 4. Two twins, and
/// a container of their mass but of another kind.
const TWINS: &str = "TASK 1
position 11 1 300 AKE 1500 PMC 1500
position 12 1 -600 AKE 900 PMC 900
position 41 1 300 AKE 1500 PMC 1500
position 42 1 -200 AKE 1500 PMC 1500
bulk 51 1 700
exclude 12 11
combined 1900 11 41
cumulative aft 42 950
cumulative forward 12 1000
item AKE10002XX 800
item PMC10001XX 800
item AKE10003XX 800
loose 51 100
base 50.00000
window -1.00000 3.00000
ideal 50.00000 50.10000
END
";

/// Small tasks: edits of that text, behind a name. A `~` stands for the end of a line.
const SMALL_TASKS: &str = "agrees|two twins, and one of their mass but of another kind
agrees|two twins after a heavier container|item PMC10001XX 800=>item AKE10001XX 1000
agrees|three twins|item AKE10002XX 800~item PMC10001XX 800~item AKE10003XX 800~=>item AKE10002XX 500~item AKE10001XX 500~item AKE10003XX 500~
agrees|a combined limit met exactly|combined 1900=>combined 1600|-1.00000 3.00000=>-100.00000 100.00000
agrees|a combined limit broken by a kilogram|combined 1900=>combined 1599|-1.00000 3.00000=>-100.00000 100.00000
agrees|a cumulative limit met exactly by a loose load|loose 51 100=>loose 51 150
agrees|loose loads over a limit|loose 51 100=>loose 51 951
agrees|sides|TASK 1=>TASK 2|item AKE10002XX=>side 11 right~side 12 left~side 41 left~side 42 right~lateral 500~item AKE10002XX|-1.00000 3.00000=>-100.00000 100.00000
agrees|a lateral limit met exactly by a loose load on the right|TASK 1=>TASK 2|item AKE10002XX=>side 11 left~side 41 right~side 42 left~side 51 right~lateral 700~item AKE10002XX|-1.00000 3.00000=>-100.00000 100.00000
agrees|the same limit broken by a kilogram|TASK 1=>TASK 2|item AKE10002XX=>side 11 left~side 41 right~side 42 left~side 51 right~lateral 699~item AKE10002XX|-1.00000 3.00000=>-100.00000 100.00000";

fn reaches_agree(partial: &Partial<'_>) -> bool {
    let task = partial.task();
    let prefix = partial.prefix();
    prefix.len() <= task.items().len()
        && partial.reach() == reach_of(task, prefix)
        && partial.wide_reach() == wide_reach_of(task, prefix)
        && partial.lateral_reach() == lateral_reach_of(task, prefix)
        && partial.bound() == bound_of(task, prefix)
        && partial.wide_bound() == wide_bound_of(task, prefix)
}

fn viable_agrees(partial: &Partial<'_>) -> bool {
    let task = partial.task();
    let prefix = partial.prefix();
    if is_prefix_viable(task, prefix) {
        partial.viable_bound() == partial.bound()
    } else {
        partial.viable_bound().is_none()
    }
}

// Each number, also of no position, for each container that is left.
fn positions_agree(partial: &Partial<'_>) -> bool {
    let task = partial.task();
    let prefix = partial.prefix();
    for item in prefix.len()..task.items().len() {
        for number in 0..66 {
            let container = task.at_rank(item);
            if partial.is_open(item as u8, number)
                != is_position_open(task, prefix, container, number)
            {
                return false;
            }
        }
    }
    true
}

fn falls_agree(partial: &Partial<'_>) -> bool {
    let task = partial.task();
    let prefix = partial.prefix();
    if prefix.len() < task.items().len() {
        for number in 0..66 {
            let next = task.at_rank(prefix.len());
            if partial.falls(number) != falls_at(task, prefix, next, number) {
                return false;
            }
        }
    }
    true
}

// The outlook tells the bound that the longer prefix has.
fn next_agrees(partial: &mut Partial<'_>, number: u8) -> bool
    requires { length partial.old.prefix < length partial.old.task.items }
    ensures { partial.new ≡ partial.old }
{
    if number >= partial.task().hold().position_count() {
        return true;
    }
    let told = partial.outlook().bound_on(number);
    if !advances(partial, number) {
        return told.is_none();
    }
    let placed = partial.viable_bound();
    partial.undo();
    told == placed
}

fn agrees(partial: &Partial<'_>) -> bool {
    reaches_agree(partial)
        && viable_agrees(partial)
        && positions_agree(partial)
        && falls_agree(partial)
}

// Whether a step to a position, or its refusal, is as the plain programs say.
fn step_agrees(partial: &mut Partial<'_>, number: u8) -> bool {
    if partial.prefix().len() >= partial.task().items().len() {
        return true;
    }
    if !next_agrees(partial, number) {
        return false;
    }
    let want = broken_rule(partial.task(), partial.prefix(), number);
    partial.try_place(number).err() == want && agrees(partial)
}

// Whether each step of three back is as the plain programs say.
fn steps_back_agree(partial: &mut Partial<'_>) -> bool {
    for _ in 0..3 {
        if !partial.prefix().is_empty() {
            partial.undo();
            if !agrees(partial) {
                return false;
            }
        }
    }
    true
}

// The first of all paths of three numbers on which something else is said.
fn first_wrong_path(partial: &mut Partial<'_>) -> Option<u32> {
    for path in 0..216u32 {
        let [first, second, third] = [path / 36, path / 6 % 6, path % 6];
        if !step_agrees(partial, first as u8)
            || !step_agrees(partial, second as u8)
            || !step_agrees(partial, third as u8)
            || !steps_back_agree(partial)
        {
            return Some(path);
        }
    }
    None
}

// Whether a task's partial placement, or why there is none, is as the plain programs say.
fn task_agrees(task: &Task) -> bool {
    match Partial::new(task) {
        Err(rule) => broken_limit(task, &[]) == Some(rule),
        Ok(mut partial) => agrees(&partial) && first_wrong_path(&mut partial).is_none(),
    }
}

/// Whether the partial placements of a task agree with the plain programs.
struct Agreement;

impl Subject for Agreement {
    fn said(&self, alloc: Global, case: &str) -> Result<String, Fail> {
        let agrees = task_agrees(&task_from(alloc, TWINS, case)?);
        Ok(String::from_str(alloc, if agrees { "agrees" } else { "differs" })?)
    }
}

#[test]
fn a_partial_placement_agrees_with_the_plain_programs(rt: HostRuntime) {
    pass(&rt, rt.alloc(), &Agreement, SMALL_TASKS);
}
