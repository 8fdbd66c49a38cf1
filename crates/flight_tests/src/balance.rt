// The worked day: its task and its balance, days that are refused, and each rule broken alone.
use crate::pass;
use aircraft_file::Aircraft;
use arrayvec::ArrayVec;
use case_rows::{Subject, edited};
use flight_row::read_row;
use hold_limits::{Path, Task, hold_index_of, is_in_window, is_sound};
use mass_units::{Kg, Ticks};
use std::alloc::{AllocError, Global};
use std::slice;
use std::test::Fail;
use trim::{Figures, Rule, Rules, TrimFault, broken_rules, state_of, task_of};
use worked_day::aircraft;

/// Edits of the worked day's row, behind why its figures leave no task.
const FAULTS: &str = "the fuel table does not have Kg(20001) of fuel|fuel 200 9000=>fuel 200 20001
zone 1 has more adults and children than its 60 seats|zone 50 4 2=>zone 57 4 2
loose load 1 has no bulk position, or is over 20000 kg|loose 51 200 8=>loose 51 19880 8~loose 42 100 0
no index is inside envelope 1 at the mass of the flight|dry 42000=>dry 52421
no index is inside envelope 2 at the mass of the flight|dry 42000=>dry 52420|fuel 200 9000=>fuel 200 10001
no index is inside envelope 3 at the mass of the flight|dry 42000=>dry 52420|9000 6000=>10000 4999
container 1 has the identity of an earlier one|AKE10002XX=>AKE10001XX";

/// The same behind the only rule that its figures break, with the containers on positions 11 and 42.
const BROKEN_ALONE: &str = "RAMP,|fuel 200=>fuel 10321
ZERO FUEL,|dry 42000=>dry 49921
TAKE OFF,|limits 73500=>limits 63579
LANDING,|limits 73500 66000=>limits 73500 57579
REGULATED,|limits 73500=>limits 73501
REGULATED,|limits 73500 66000=>limits 73500 66001
ZERO FUEL ENVELOPE,|dry 42000 50.00000=>dry 42000 41.00000
TAKE OFF ENVELOPE,|dry 42000 50.00000=>dry 42000 41.29000|9000 6000=>18000 12000
LANDING ENVELOPE,|dry 42000 50.00000=>dry 42000 41.34000|9000 6000=>10000 100";

/// The balance of the worked day.
const BALANCE: &str = "Balance { masses: Masses { ramp: Kg(63780), zero_fuel: Kg(54580), \
    take_off: Kg(63580), landing: Kg(57580) }, underload: Underload { kg: 7920, limiting: ZeroFuel }, \
    zero_fuel: Ticks(5166000), take_off: Ticks(5045000), landing: Ticks(5165000) }";

/// The row of the worked day before its plan.
const UNPLANNED: &str = "FLIGHT 2
leg XX210 12 DAIAB FRA ARN
edition 7
stage working
releases 0
dry 42000 50.00000 2 4
fuel 200 9000 6000
limits 73500 66000
zone 50 4 2
zone 70 6 1
container AKE10001XX 1000
container AKE10002XX 800
loose 51 200 8
END
";

/// The figures of the flight of a row.
fn figures_in(alloc: Global, aircraft: &Aircraft, row: &str) -> Result<Figures, Fail> {
    let flight = read_row(alloc, slice::from_ref(aircraft), row.as_bytes())?;
    Ok(flight.base.clone()?)
}

/// The figures of the worked day with edits of its row.
fn figures_with(alloc: Global, edits: &str) -> Result<Figures, Fail> {
    let text = edited(alloc, UNPLANNED, edits)?;
    let aircraft = aircraft(alloc)?;
    figures_in(alloc, &aircraft, text.as_str())
}

/// The figures of the worked day.
fn worked(alloc: Global) -> Result<Figures, Fail> {
    figures_with(alloc, "")
}

/// The answer of `task_of`. No figures here are beyond the limits that it asks for.
fn task(alloc: Global, figures: &Figures) -> Result<Result<Task, TrimFault>, Fail> {
    if !figures.keeps_limits() {
        return Err(Fail::new("the figures are within their limits"));
    }
    Ok(task_of(alloc, &aircraft(alloc)?, figures))
}

fn path(first: u8, second: u8) -> Path {
    let mut path = ArrayVec::new();
    path.push(first);
    path.push(second);
    path
}

/// The answer of `broken_rules` for two containers on these positions.
fn rules(
    alloc: Global,
    figures: &Figures,
    first: u8,
    second: u8,
) -> Result<Result<Rules, TrimFault>, Fail> {
    let path = path(first, second);
    if !figures.keeps_limits() || path.len() != figures.containers.as_slice().len() {
        return Err(Fail::new("the figures are within their limits"));
    }
    Ok(broken_rules(&aircraft(alloc)?, figures, &path))
}

/// Why the figures with the edits of a case leave no task.
struct Faults;

impl Subject for Faults {
    fn said(&self, alloc: Global, case: &str) -> Result<String, Fail> {
        let figures = figures_with(alloc, case)?;
        match task(alloc, &figures)?.err() {
            Some(fault) => Ok(format!(in alloc; "{fault}")?),
            None => Ok(String::from_str(alloc, "a task")?),
        }
    }
}

/// The rules that the figures with the edits of a case break, each with a comma behind it.
struct Broken;

impl Subject for Broken {
    fn said(&self, alloc: Global, case: &str) -> Result<String, Fail> {
        let rules = rules(alloc, &figures_with(alloc, case)?, 0, 3)??;
        let mut said = String::new(alloc);
        for rule in rules.as_slice() {
            said.push_str(rule.text())?;
            said.push(',')?;
        }
        Ok(said)
    }
}

/// The base, the window and the ideal band of a task.
fn indices_of(task: &Task) -> [Ticks; 5] {
    [
        task.base(),
        task.low(),
        task.high(),
        task.ideal_low(),
        task.ideal_high(),
    ]
}

/// The indices of a task, and how many containers and loose loads it has; or why there is none.
fn task_text(alloc: Global, task: &Result<Task, TrimFault>) -> Result<String, AllocError> {
    match task {
        Ok(task) => {
            let counts = (task.items().len(), task.loose().len());
            format!(in alloc; "{:?} {counts:?}", indices_of(task))
        }
        Err(fault) => format!(in alloc; "{fault}"),
    }
}

#[test]
fn the_worked_day_has_its_task(rt: HostRuntime) -> Result<(), Fail> {
    let figures = worked(rt.alloc())?;
    assert_eq!(rt;
        task_text(rt.alloc(), &task(rt.alloc(), &figures)?)?.as_str(),
        "[Ticks(4877000), Ticks(-706400), Ticks(1002000), Ticks(5000000), Ticks(5100000)] (2, 1)"
    );
    Ok(())
}

/// The balance of the figures, with the containers on positions 11 and 42.
fn balance_text(alloc: Global, figures: &Figures) -> Result<String, Fail> {
    let path = path(0, 3);
    if !figures.keeps_limits() || path.len() != figures.containers.as_slice().len() {
        return Err(Fail::new("the figures are within their limits"));
    }
    let balance = state_of(&aircraft(alloc)?, figures, &path)?;
    Ok(format!(in alloc; "{balance:?}")?)
}

#[test]
fn the_worked_day_has_its_balance(rt: HostRuntime) -> Result<(), Fail> {
    let figures = worked(rt.alloc())?.copy(rt.alloc())?;
    assert_eq!(rt; balance_text(rt.alloc(), &figures)?.as_str(), BALANCE);
    Ok(())
}

#[test]
fn figures_that_leave_no_task_are_refused(rt: HostRuntime) {
    pass(&rt, rt.alloc(), &Faults, FAULTS);
}

#[test]
fn fuel_beyond_the_table_breaks_no_rule(rt: HostRuntime) -> Result<(), Fail> {
    let figures = figures_with(rt.alloc(), "fuel 200 9000=>fuel 200 20001")?;
    let rules = rules(rt.alloc(), &figures, 0, 3)?;
    assert_eq!(rt; rules.err(), Some(TrimFault::FuelOut(Kg(20_001))));
    Ok(())
}

#[test]
fn each_rule_is_broken_alone(rt: HostRuntime) {
    pass(&rt, rt.alloc(), &Broken, BROKEN_ALONE);
}

/// The rules that the worked day breaks with its containers on these positions.
fn rules_text(alloc: Global, first: u8, second: u8) -> Result<String, Fail> {
    let rules = rules(alloc, &worked(alloc)?, first, second)??;
    Ok(format!(in alloc; "{:?}", rules.as_slice())?)
}

#[test]
fn broken_rules_are_listed_in_order(rt: HostRuntime) -> Result<(), Fail> {
    assert_eq!(rt; rules_text(rt.alloc(), 0, 4)?.as_str(), "[Hold]");
    assert_eq!(rt;
        rules_text(rt.alloc(), 0, 0)?.as_str(),
        "[ZeroFuelEnvelope, Hold]"
    );
    assert_eq!(rt; rules_text(rt.alloc(), 0, 3)?.as_str(), "[]");
    assert_eq!(rt; Rule::Lateral.text(), "LATERAL");
    Ok(())
}

/// Whether the task admits the path.
fn admits(task: &Task, path: &Path) -> bool {
    if path.len() > task.items().len() {
        return false;
    }
    let numbers = path.as_slice();
    is_sound(task, numbers) && is_in_window(task, hold_index_of(task, numbers))
}

/// Whether the task and the rules say the same of containers on these positions.
fn are_agreed(
    alloc: Global,
    figures: &Figures,
    task: &Task,
    first: u8,
    second: u8,
) -> Result<bool, Fail> {
    let rules = rules(alloc, figures, first, second)??;
    Ok(rules.is_empty() == admits(task, &path(first, second)))
}

/// The first two positions of which they say different things.
fn first_difference(
    alloc: Global,
    figures: &Figures,
    task: &Task,
) -> Result<Option<(u8, u8)>, Fail> {
    for number in 0..36_u8 {
        let (first, second) = (number / 6, number % 6);
        if !are_agreed(alloc, figures, task, first, second)? {
            return Ok(Some((first, second)));
        }
    }
    Ok(None)
}

/// The same for the worked day.
fn worked_difference(alloc: Global) -> Result<Option<(u8, u8)>, Fail> {
    let figures = worked(alloc)?;
    let task = task(alloc, &figures)??;
    first_difference(alloc, &figures, &task)
}

#[test]
fn the_task_admits_the_paths_that_break_no_rule(rt: HostRuntime) -> Result<(), Fail> {
    assert_eq!(rt; worked_difference(rt.alloc())?, None);
    Ok(())
}
