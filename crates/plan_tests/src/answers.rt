// The search over small tasks: beside a trial of every list of position numbers, and its whole certificates.
use crate::pass;
use crate::small_tasks::{all_lists, task_with};
use case_rows::{Subject, field};
use certificate::Certificate;
use hold_limits::{
    Path, Task, hold_index_of, is_in_window, is_sound, lateral_difference_of, outcome,
};
use placer::{Answer, Direct, Placing, place};
use std::alloc::{AllocError, Global};
use std::test::Fail;

/// The distance of a path from the ideal band, where the task admits it.
fn distance_of(task: &Task, list: &[u8]) -> Result<Option<u64>, Fail> {
    let path = Path::try_from(list)?;
    if !is_sound(task, path.as_slice())
        || path.len() != task.items().len()
        || !is_in_window(task, hold_index_of(task, path.as_slice()))
        || !task
            .hold()
            .is_within_lateral(lateral_difference_of(task, path.as_slice()))
    {
        return Ok(None);
    }
    Ok(Some(outcome(task, &path).1))
}

fn is_nearer(distance: Option<u64>, least: Option<u64>) -> bool {
    match (distance, least) {
        (Some(distance), Some(least)) => distance < least,
        (Some(_), None) => true,
        (None, _) => false,
    }
}

/// The best path, found by trying every list in path order, if there is one.
fn best_by_trial(alloc: Global, task: &Task) -> Result<String, Fail> {
    let lists = all_lists(alloc, task.items().len())?;
    let mut least = None;
    let mut best = None;
    for list in &lists {
        let distance = distance_of(task, list.as_slice())?;
        if is_nearer(distance, least) {
            least = distance;
            best = Some(list.as_slice());
        }
    }
    Ok(format!(in alloc; "{best:?}")?)
}

/// The best path of an answer, if it has one.
fn best_path(answer: &Answer) -> Option<&[u8]> {
    match answer {
        Answer::Best(proven) => Some(proven.path().as_slice()),
        Answer::NoneFits(_) | Answer::Budget(_) => None,
    }
}

/// Whether an answer has the best path that is spelled so.
fn compared(alloc: Global, answer: &Answer, best: &str) -> Result<&'static str, AllocError> {
    if matches!(answer, Answer::Budget(_)) {
        return Ok("over the budget");
    }
    let placed = format!(in alloc; "{:?}", best_path(answer))?;
    Ok(if placed.as_str() == best {
        "the same"
    } else {
        "another"
    })
}

fn compared_with_trial(alloc: Global, task: &Task) -> Result<&'static str, Fail> {
    let best = best_by_trial(alloc, task)?;
    Ok(compared(alloc, &place(alloc, task, 50_000)?, best.as_str())?)
}

/// Whether the best path is what a trial finds.
struct Trial;

impl Subject for Trial {
    fn said(&self, alloc: Global, case: &str) -> Result<String, Fail> {
        let told = compared_with_trial(alloc, &task_with(alloc, case)?)?;
        Ok(String::from_str(alloc, told)?)
    }
}

/// Small tasks: edits of the worked task, behind a name.
const SMALL_TASKS: &str = "the same|the worked task
the same|a lateral limit|TASK 1=>TASK 2|item AKE10001XX=>side 11 right~side 12 left~side 41 left~side 42 right~lateral 500~item AKE10001XX
the same|a lateral limit met exactly|TASK 1=>TASK 2|item AKE10001XX=>side 11 right~side 12 left~side 41 left~side 42 right~lateral 200~item AKE10001XX
the same|a lateral limit that no path keeps|TASK 1=>TASK 2|item AKE10001XX=>side 11 right~side 12 left~side 41 left~side 42 right~lateral 199~item AKE10001XX
the same|a loose load on the right|TASK 1=>TASK 2|item AKE10001XX=>side 11 right~side 12 left~side 41 left~side 42 right~side 51 right~lateral 150~item AKE10001XX|base=>loose 51 50~base
the same|two twins|item AKE10002XX 800=>item AKE10002XX 1000
the same|four twins, which can only stand in one order, with a lateral limit of nothing|TASK 1=>TASK 2|item AKE10001XX 1000~item AKE10002XX 800=>side 11 right~side 12 left~side 41 left~side 42 right~lateral 0~item AKE10001XX 500~item AKE10002XX 500~item AKE10003XX 500~item AKE10004XX 500
the same|an excluding pair|item AKE10001XX=>exclude 12 41~item AKE10001XX
the same|a combined limit and a loose load|item AKE10001XX=>combined 1300 11 51~item AKE10001XX|base=>loose 51 301~base|-100.00000 100.00000=>-200.00000 0.00000
the same|the same limit met exactly|item AKE10001XX=>combined 1300 11 51~item AKE10001XX|base=>loose 51 300~base|-100.00000 100.00000=>-200.00000 0.00000
the same|a cumulative limit|item AKE10001XX=>cumulative forward 12 999~item AKE10001XX
the same|equal masses|item AKE10001XX 1000~item AKE10002XX 800=>item AKE10001XX 900~item AKE10002XX 900~item AKE10003XX 900|ideal 50.00000 50.00000=>ideal 51.00000 51.00000
the same|equal distances|AKE10001XX 1000=>AKE10001XX 700|AKE10002XX 800=>AKE10002XX 600|ideal 50.00000 50.00000=>ideal 0.00000 100.00000
the same|a full hold|item AKE10001XX 1000~item AKE10002XX 800=>item AKE10001XX 1~item AKE10002XX 2~item AKE10003XX 3~item AKE10004XX 4|-100.00000 100.00000=>-1.00000 1.00000
the same|too many containers|item AKE10001XX 1000~item AKE10002XX 800=>item AKE10001XX 1~item AKE10002XX 2~item AKE10003XX 3~item AKE10004XX 4~item AKE10005XX 5
the same|a crossed window|-100.00000 100.00000=>0.00001 -0.00001
the same|a window of one index|-100.00000 100.00000=>0.00000 0.00000
the same|loose loads over a limit|item AKE10001XX=>combined 99 11 51~item AKE10001XX|base=>loose 51 100~base";

#[test]
fn the_best_path_is_what_a_trial_finds(rt: HostRuntime) {
    pass(&rt, rt.alloc(), &Trial, SMALL_TASKS);
}

/// Certificates that were worked out by hand, each with the number of its near prefixes, which is a budget that is just met,
/// and edits of the worked task.
const WORKED_BY_HAND: &str =
    "Certificate { claim: Best([1, 2]), cuts: Cuts { list: [[0], [3]] }, expanded: 3 }|4
Certificate { claim: Best([]), cuts: Cuts { list: [] }, expanded: 0 }|1|item AKE10001XX 1000~item AKE10002XX 800~=>
Certificate { claim: NoneFits, cuts: Cuts { list: [] }, expanded: 3 }|3|-100.00000 100.00000=>0.00000 0.00000
Certificate { claim: Best([0, 3]), cuts: Cuts { list: [[1], [2]] }, expanded: 2 }|3|item AKE10002XX 800=>item AKE10002XX 1000
Certificate { claim: NoneFits, cuts: Cuts { list: [] }, expanded: 2 }|2|item AKE10002XX 800=>item AKE10002XX 1000|-100.00000 100.00000=>0.00001 0.00001";

/// The certificate of an answer, if it has one.
fn certificate_of(answer: &Answer) -> Option<&Certificate> {
    match answer {
        Answer::Best(proven) => Some(proven.certificate()),
        Answer::NoneFits(none) => Some(none.certificate()),
        Answer::Budget(_) => None,
    }
}

fn certificate_text(alloc: Global, answer: &Answer) -> Result<String, AllocError> {
    match certificate_of(answer) {
        Some(certificate) => format!(in alloc; "{certificate:?}"),
        None => String::from_str(alloc, "over its budget"),
    }
}

/// The certificate of the answer within a budget.
struct Certificates;

impl Subject for Certificates {
    fn said(&self, alloc: Global, case: &str) -> Result<String, Fail> {
        let budget = field(case, 0)?.parse::<u32>()?;
        let answer = Direct.place(alloc, &task_with(alloc, case)?, budget)?;
        Ok(certificate_text(alloc, &answer)?)
    }
}

#[test]
fn the_certificates_are_those_worked_out_by_hand(rt: HostRuntime) {
    pass(&rt, rt.alloc(), &Certificates, WORKED_BY_HAND);
}

/// The same tasks with one near prefix less, which is spent.
const SPENT: &str = "Some(3)|3
Some(0)|0|item AKE10001XX 1000~item AKE10002XX 800~=>
Some(2)|2|-100.00000 100.00000=>0.00000 0.00000
Some(2)|2|item AKE10002XX 800=>item AKE10002XX 1000
Some(1)|1|item AKE10002XX 800=>item AKE10002XX 1000|-100.00000 100.00000=>0.00001 0.00001";

fn spent_of(answer: &Answer) -> Option<u32> {
    match answer {
        Answer::Budget(spent) => Some(*spent),
        Answer::Best(_) | Answer::NoneFits(_) => None,
    }
}

/// The budget that is spent, if it is.
struct Budgets;

impl Subject for Budgets {
    fn said(&self, alloc: Global, case: &str) -> Result<String, Fail> {
        let budget = field(case, 0)?.parse::<u32>()?;
        let spent = spent_of(&place(alloc, &task_with(alloc, case)?, budget)?);
        Ok(format!(in alloc; "{spent:?}")?)
    }
}

#[test]
fn one_near_prefix_more_than_the_budget_spends_it(rt: HostRuntime) {
    pass(&rt, rt.alloc(), &Budgets, SPENT);
}
