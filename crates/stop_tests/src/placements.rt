// The best path of three containers over two sectors and over three, beside a trial of every path.
use case_rows::{Subject, check, edited, numbers, unsigned_at};
use hold_limits::{Path, is_admissible, outcome};
use std::alloc::Global;
use std::io::Eprint;
use std::process::{Abort, ExitCode, Termination};
use std::test::Fail;
use stop_placer::{StopAnswer, place_stops};
use stop_tasks::{StopTask, is_stop_admissible};
use stop_text::read_stops;

/// Four positions, numbered 0 to 3, and three containers, of which the second leaves after the first sector. The bases
/// tell the sectors apart.
const TWO: &str = "STOPS 1
leave AKE10001XX 2
leave AKE10002XX 1
leave AKE10003XX 2
behind 12 11
behind 41 42
TASK 1
position 11 1 -600 AKE 1500
position 12 1 -400 AKE 1500
position 41 4 400 AKE 1500
position 42 4 600 AKE 1500
item AKE10001XX 1000
item AKE10002XX 800
item AKE10003XX 600
base 50.00000
window -100.00000 100.00000
ideal 50.00000 50.00000
END
TASK 1
position 11 1 -600 AKE 1500
position 12 1 -400 AKE 1500
position 41 4 400 AKE 1500
position 42 4 600 AKE 1500
item AKE10001XX 1000
item AKE10003XX 600
base 51.00000
window -100.00000 100.00000
ideal 50.00000 50.00000
END
";

/// The same hold and containers, of which one leaves after each sector, the lightest first.
const THREE: &str = "STOPS 1
leave AKE10001XX 3
leave AKE10002XX 2
leave AKE10003XX 1
behind 12 11
behind 41 42
TASK 1
position 11 1 -600 AKE 1500
position 12 1 -400 AKE 1500
position 41 4 400 AKE 1500
position 42 4 600 AKE 1500
item AKE10001XX 1000
item AKE10002XX 800
item AKE10003XX 600
base 50.00000
window -100.00000 100.00000
ideal 50.00000 50.00000
END
TASK 1
position 11 1 -600 AKE 1500
position 12 1 -400 AKE 1500
position 41 4 400 AKE 1500
position 42 4 600 AKE 1500
item AKE10001XX 1000
item AKE10002XX 800
base 51.00000
window -100.00000 100.00000
ideal 50.00000 50.00000
END
TASK 1
position 11 1 -600 AKE 1500
position 12 1 -400 AKE 1500
position 41 4 400 AKE 1500
position 42 4 600 AKE 1500
item AKE10001XX 1000
base 52.00000
window -100.00000 100.00000
ideal 50.00000 50.00000
END
";

/// The answer; behind it the number of sectors and a budget, and edits of the text. Over three sectors 14 prefixes are
/// near, and over two as many; the first rows spend just so many, and one less. Then come other ways out, to one on
/// which no two containers with different last sectors can stand.
const PAIRS: &str = "Best([0, 3, 2])|3 14
Budget(13)|3 13
Best([0, 2, 3])|2 14
Budget(13)|2 13
Best([0, 2, 3])|3 5000|behind 41 42~=>
Best([3, 1, 0])|3 5000|behind 12 11~=>
Best([3, 1, 0])|3 5000|behind 12 11~=>|behind 41 42~=>behind 41 42~behind 11 42~behind 42 41~
NoneFits|3 5|41 42=>41 42~behind 42 41~behind 11 12~behind 11 41~behind 41 11~behind 11 42~behind 42 11~behind 12 41~behind 41 12~behind 12 42~behind 42 12
Budget(4)|3 4|41 42=>41 42~behind 42 41~behind 11 12~behind 11 41~behind 41 11~behind 11 42~behind 42 11~behind 12 41~behind 41 12~behind 12 42~behind 42 12";

/// Windows of a later sector that turn the best path away, or all paths. Then equal containers: those that leave on
/// different sectors may stand in either order, and only one order can be unloaded.
const WINDOWS_AND_TWINS: &str =
    "Best([3, 1, 0])|2 5000|base 51.00000~window -100.00000=>base 51.00000~window 0.00000
Best([1, 2, 3])|2 5000|base 51.00000~window -100.00000 100.00000=>base 51.00000~window -2.00000 2.00000
NoneFits|2 1|base 51.00000~window -100.00000 100.00000=>base 51.00000~window 0.00000 0.00000
Best([3, 0, 1])|3 5000|base 51.00000~window -100.00000=>base 51.00000~window 0.00000
Best([1, 3, 2])|3 5000|base 52.00000~window -100.00000 100.00000=>base 52.00000~window -4.00000 -4.00000
Best([2, 0, 1])|3 5|base 52.00000~window -100.00000 100.00000=>base 52.00000~window 4.00000 4.00000
Budget(4)|3 4|base 52.00000~window -100.00000 100.00000=>base 52.00000~window 4.00000 4.00000
Best([0, 3, 2])|3 5000|XX 600=>XX 800
Best([0, 2, 3])|3 5000|XX 600=>XX 800|3XX 1=>3XX 2|item AKE10002XX 800~base=>item AKE10002XX 800~item AKE10003XX 800~base
Best([0, 1, 3])|3 5000|XX 800=>XX 1000|XX 600=>XX 1000";

/// A lateral limit, which may turn away the best path of the first sector, of a later one alone, or of all.
const LATERAL: &str =
    "Best([0, 3, 1])|2 5000|TASK 1=>TASK 2|42 4 600 AKE 1500=>42 4 600 AKE 1500~side 11 left~side 12 right~side 41 left~side 42 right~lateral 1000
Best([2, 1, 0])|2 5000|TASK 1=>TASK 2|42 4 600 AKE 1500=>42 4 600 AKE 1500~side 11 left~side 41 right~lateral 400
Best([1, 3, 2])|3 5000|TASK 1=>TASK 2|42 4 600 AKE 1500=>42 4 600 AKE 1500~side 11 left~side 12 right~side 41 right~side 42 left~lateral 1200
Best([1, 3, 2])|3 5000|TASK 1=>TASK 2|42 4 600 AKE 1500=>42 4 600 AKE 1500~side 11 left~side 42 right~lateral 800
NoneFits|3 1|TASK 1=>TASK 2|42 4 600 AKE 1500=>42 4 600 AKE 1500~side 11 left~side 12 right~side 41 left~side 42 right~lateral 600";

struct Placements;

/// The load of the case: the text of so many sectors, with the edits behind its numbers.
fn load_of(alloc: Global, sectors: u32, edits: &str) -> Result<StopTask, Fail> {
    let text = if sectors == 2 { TWO } else { THREE };
    let text = edited(alloc, text, edits)?;
    Ok(read_stops(alloc, text.as_bytes())?)
}

/// The path of which this is the place among all of three containers, in path order.
fn path_at(place: u8) -> Path {
    let mut path = Path::new();
    path.push(place / 16);
    path.push(place / 4 % 4);
    path.push(place % 4);
    path
}

/// How far from the ideal an admissible path is, in ticks.
fn distance_of(t: &StopTask, path: &Path) -> Option<u64> {
    if is_stop_admissible(t, path.as_slice()) && is_admissible(t.first(), path.as_slice()) {
        Some(outcome(t.first(), path).1)
    } else {
        None
    }
}

/// The answer by a trial of every path, without a budget.
fn answer_by_trial(t: &StopTask) -> StopAnswer {
    let mut answer = StopAnswer::NoneFits;
    let mut least = None;
    for place in 0..64 {
        let path = path_at(place);
        let distance = distance_of(t, &path);
        if distance.is_some() && (least.is_none() || distance < least) {
            least = distance;
            answer = StopAnswer::Best(path);
        }
    }
    answer
}

impl Subject for Placements {
    fn said(&self, alloc: Global, case: &str) -> Result<String, Fail> {
        let (figures, edits) = case.split_once('|').unwrap_or((case, ""));
        let figures = numbers(alloc, figures)?;
        let load = load_of(alloc, unsigned_at(figures.as_slice(), 0), edits)?;
        let budget = unsigned_at(figures.as_slice(), 1).clamp(1, 5000);
        let answer = place_stops(alloc, &load, budget)?;
        let placed = format!(in alloc; "{answer:?}")?;
        let tried = format!(in alloc; "{:?}", answer_by_trial(&load))?;
        if matches!(answer, StopAnswer::Budget(_)) || placed == tried {
            Ok(placed)
        } else {
            Ok(String::from_str(alloc, "another than by trial")?)
        }
    }
}

/// Fails a test where the load of a row has another answer, and prints the row.
fn pass<R: Abort + Eprint>(rt: &R, alloc: Global, rows: &str) {
    let code = check(alloc, &Placements, rows).report(rt);
    assert!(rt; code == ExitCode::SUCCESS);
}

#[test]
fn the_best_path_that_can_be_unloaded_is_what_a_trial_finds(rt: HostRuntime) {
    pass(&rt, rt.alloc(), PAIRS);
}

#[test]
fn each_sector_keeps_its_window_and_twins_may_leave_apart(rt: HostRuntime) {
    pass(&rt, rt.alloc(), WINDOWS_AND_TWINS);
}

#[test]
fn each_sector_keeps_its_lateral_limit(rt: HostRuntime) {
    pass(&rt, rt.alloc(), LATERAL);
}
