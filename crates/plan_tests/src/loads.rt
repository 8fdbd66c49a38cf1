// Loads made from numbers.
use crate::pass;
use case_rows::Subject;
use generated_load::generated_task;
use hold_limits::Task;
use std::alloc::{AllocError, Global};
use std::test::Fail;

fn total_mass(task: &Task) -> u64 {
    let mut total: u64 = 0;
    for item in task.items() {
        total = total.saturating_add(u64::from(item.mass.0));
    }
    total
}

/// The load that is made from the number that is spelled so.
fn load_of(alloc: Global, number: &str) -> Result<Task, Fail> {
    Ok(generated_task(alloc, number.parse::<u32>()?)?)
}

/// The mass of the first container.
fn first_text(alloc: Global, task: &Task) -> Result<String, AllocError> {
    let first = task.items().first().map(|item| item.mass);
    format!(in alloc; "{first:?}")
}

/// How many containers and positions there are, and the mass of all containers.
fn counts_text(alloc: Global, task: &Task) -> Result<String, AllocError> {
    let counts = (task.items().len(), task.hold().positions().len());
    format!(in alloc; "{counts:?} {}", total_mass(task))
}

/// What is told of the load that is made from a number: its first container, or all.
struct Made;

impl Subject for Made {
    fn said(&self, alloc: Global, case: &str) -> Result<String, Fail> {
        let (number, asked) = case.split_once(' ').unwrap_or((case, ""));
        told_of(alloc, &load_of(alloc, number)?, asked)
    }
}

fn told_of(alloc: Global, task: &Task, asked: &str) -> Result<String, Fail> {
    if asked == "first" {
        Ok(first_text(alloc, task)?)
    } else {
        Ok(counts_text(alloc, task)?)
    }
}

#[test]
fn masses_follow_from_the_number(rt: HostRuntime) {
    let rows = "(48, 64) 50712|0 all\nSome(Kg(702))|4294967295 first";
    pass(&rt, rt.alloc(), &Made, rows);
}
