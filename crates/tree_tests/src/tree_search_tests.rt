// The search by trees over small tasks, beside the best-first search.
use crate::pass;
use case_rows::{Subject, edited};
use hold_limits::Task;
use placer::{Answer, place};
use problem_text::read_task;
use std::alloc::Global;
use std::test::Fail;
use tree_search::{TreeAnswer, find_best};

const WORKED: &str = "TASK 1
position 11 1 -600 AKE 1500
position 12 1 -400 AKE 1500
position 41 4 400 AKE 1500
position 42 4 600 AKE 1500
bulk 51 5 700
item AKE10001XX 1000
item AKE10002XX 800
base 50.00000
window -100.00000 100.00000
ideal 50.00000 50.00000
END
";

// The worked task with edits.
fn task_with(alloc: Global, edits: &str) -> Result<Task, Fail> {
    Ok(read_task(alloc, edited(alloc, WORKED, edits)?.as_bytes())?)
}

fn are_same(trees: &TreeAnswer, direct: &Answer) -> bool {
    match (trees, direct) {
        (TreeAnswer::Best(proven), Answer::Best(other)) => {
            proven.path().as_slice() == other.path().as_slice()
        }
        (TreeAnswer::NoneFits(_), Answer::NoneFits(_)) => true,
        _ => false,
    }
}

/// Whether both searches answer the worked task with the edits of a case alike.
struct Alike;

impl Subject for Alike {
    fn said(&self, alloc: Global, case: &str) -> Result<String, Fail> {
        let task = task_with(alloc, case)?;
        let trees = find_best(alloc, &task, 1_000)?;
        let direct = place(alloc, &task, 10_000)?;
        let said = if are_same(&trees, &direct) {
            "alike"
        } else {
            "different"
        };
        Ok(String::from_str(alloc, said)?)
    }
}

#[test]
fn trees_answer_small_tasks_as_the_other_search_does(rt: HostRuntime) {
    let rows = "alike|END=>END
alike|TASK 1=>TASK 2|item AKE10001XX 1000=>side 11 right~side 12 left~side 41 left~side 42 right~lateral 200~item AKE10001XX 1000
alike|TASK 1=>TASK 2|item AKE10001XX 1000=>side 11 right~side 12 left~side 41 left~side 42 right~lateral 199~item AKE10001XX 1000
alike|item AKE10002XX 800=>item AKE10002XX 1000
alike|item AKE10002XX 800=>item AKE10002XX 1000~item AKE10003XX 1000~item AKE10004XX 500
alike|item AKE10002XX 800=>item AKE10002XX 800~item AKE10003XX 3~item AKE10004XX 4~item AKE10005XX 5
alike|item AKE10001XX=>exclude 12 41~item AKE10001XX
alike|item AKE10001XX=>combined 1300 11 12~item AKE10001XX
alike|item AKE10001XX=>cumulative forward 12 999~item AKE10001XX
alike|base 50.00000=>loose 51 300~base 50.00000
alike|50.00000 50.00000=>51.00000 51.00000
alike|50.00000 50.00000=>0.00000 100.00000
alike|-100.00000 100.00000=>0.00001 -0.00001
alike|-100.00000 100.00000=>0.00000 0.00000
alike|-100.00000 100.00000=>-12.00000 -11.00000
alike|item AKE10001XX 1000~item AKE10002XX 800~=>";
    pass(&rt, rt.alloc(), &Alike, rows);
}

// The first look finds a path; that it is the best takes more.
#[test]
fn one_look_does_not_decide_the_worked_task(rt: HostRuntime) -> Result<(), Fail> {
    let task = task_with(rt.alloc(), "")?;
    let answer = find_best(rt.alloc(), &task, 1)?;
    assert!(rt; matches!(&answer, TreeAnswer::Undecided(1)));
    Ok(())
}
