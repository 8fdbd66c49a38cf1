//! The flight that a row stands for, by the rule on a plan that no longer holds.

ghost use Rattle.std.specs.Prelude.{◌≡◌, ◌≤◌, ◌↔◌, ◌<◌, ℕ, List, None, Some, true, length, position, bytes_eq, Any, Contains, IsTrue, IfOk, IfSome, IfNone};
ghost use Rattle.hold_parts.specs.declared.parts.Position.{Position};
ghost use Rattle.trim.specs.declared.rules.Rule.{Rule};
ghost use Rattle.trim.specs.Laws.{plan_rules};
ghost use Rattle.trim.specs.Limits as figures;
ghost use Rattle.trim.specs.Refusals.{CanBeWeighed, IsRefused};
ghost use Rattle.trim.specs.declared.figures.Figures.{Figures};
ghost use Rattle.aircraft_file.specs.Craft.{Craft};
ghost use Rattle.flight_state.specs.Effective.{can_add_all, KeepsLimits};
ghost use Rattle.flight_row.specs.Spelled.{AreSpelledFigures, IsSpelledPlan};
ghost use Rattle.flight_row.specs.Loading.{AreNamed, IsLoaded, StillHolds, in_work_again, rules_due, without_plan};

use crate::row::Row;
use aircraft_file::Aircraft;
use base_words::NoMemory;
use flight_state::{FlightState, Lmcs, Stage, effective};
use hold_limits::{Hold, Name, Path, Position};
use std::alloc::Global;
use trim::{Figures, Rule, TrimFault, broken_rules, task_of};

/// The last edition.
const LAST_EDITION: u32 = 1_000_000_000;

/// The flight that the row stands for, with its aircraft.
pub fn loaded(alloc: Global, a: &Aircraft, row: Row) -> Result<FlightState, NoMemory>
    requires base { AreSpelledFigures row.base }
    requires changes { can_add_all row.base row.lmcs ≡ true }
    requires edition { row.edition ≤ 1000000000 }
    requires plan { IfSome row.plan IsSpelledPlan }
    ensures { IfOk result (IsLoaded a.now row) }
{
    let Row {
        leg,
        edition,
        stage,
        releases,
        base,
        plan,
        lmcs,
    } = row;
    let state = FlightState {
        leg,
        edition,
        stage,
        base,
        plan: None,
        lmcs,
        releases,
    };
    let Some(names) = plan else {
        return Ok(state);
    };
    let Some(plan) = plan_that_holds(alloc, a, &state, names.as_slice())? else {
        return without_plan(alloc, state);
    };
    Ok(with_plan(state, plan))
}

/// The positions that the names name, where the plan on them still holds.
fn plan_that_holds(
    alloc: Global,
    a: &Aircraft,
    s: &FlightState,
    names: &[Name],
) -> Result<Option<Path>, NoMemory>
    requires limits { KeepsLimits s.now }
    requires few { length names.now ≤ 60 }
    ensures found { IfOk result (λ r. IfSome r (λ plan. AreNamed a.now names.now plan.items
        × StillHolds a.now s.now plan.items)) }
    ensures none { IfOk result (λ r. IfNone r ((path : List ℕ) → AreNamed a.now names.now path
        → StillHolds a.now s.now path → ⊥)) }
{
    let Some(path) = path_named(a, names) else {
        return Ok(None);
    };
    if path.as_slice().len() != s.base.containers.as_slice().len() {
        return Ok(None);
    }
    let figures = effective(alloc, s)?;
    if !can_be_weighed(alloc, a, &figures)? {
        return Ok(None);
    }
    let Ok(rules) = broken_rules(a, &figures, &path) else {
        return Ok(None);
    };
    if some_is_due(s.stage, rules.as_slice()) {
        return Ok(None);
    }
    Ok(Some(path))
}

/// Whether the figures have masses and indices. The task of the flight is refused for that first.
fn can_be_weighed(alloc: Global, a: &Aircraft, f: &Figures) -> Result<bool, NoMemory>
    requires { figures.KeepsLimits f.now }
    ensures { IfOk result (λ answer. IsTrue answer ↔ CanBeWeighed a.now f.now) }
{
    match task_of(alloc, a, f) {
        Ok(_) => Ok(true),
        Err(fault) => is_weighed_with(fault),
    }
}

/// Whether a flight that is refused for this fault can be weighed.
fn is_weighed_with(fault: TrimFault) -> Result<bool, NoMemory>
    ensures { IfOk result (λ answer. (a : Craft) (f : Figures) → IsRefused a f fault
        → IsTrue answer ↔ CanBeWeighed a f) }
{
    match fault {
        TrimFault::FuelOut(_) | TrimFault::Pay(_) | TrimFault::LooseName(_) => Ok(false),
        TrimFault::NoWindow(_) | TrimFault::Task(_) => Ok(true),
        TrimFault::NoMemory => Err(NoMemory),
    }
}

/// Whether one of the rules has to be kept when a flight at this stage is loaded.
fn some_is_due(stage: Stage, rules: &[Rule]) -> bool
    ensures { IsTrue result ↔ Any (Contains (rules_due stage)) rules.now }
{
    rules.iter().any(|rule| is_due(stage, *rule))
}

/// Whether a plan has to keep the rule when a flight at this stage is loaded.
fn is_due(stage: Stage, rule: Rule) -> bool
    ensures { IsTrue result ↔ Contains (rules_due stage) rule }
{
    match stage {
        Stage::Released => true,
        Stage::Working | Stage::Planned | Stage::Departed => is_on_plan(rule),
    }
}

/// Whether the rule is on where the containers stand, or on the points that this gives.
fn is_on_plan(rule: Rule) -> bool
    ensures { IsTrue result ↔ Contains plan_rules rule }
{
    matches!(
        rule,
        Rule::ZeroFuelEnvelope
            | Rule::TakeOffEnvelope
            | Rule::LandingEnvelope
            | Rule::Hold
            | Rule::Lateral
    )
}

/// The numbers of the aircraft's positions with these names. None where one is unknown.
fn path_named(a: &Aircraft, names: &[Name]) -> Option<Path>
    requires { length names.now ≤ 60 }
    ensures found { IfSome result (λ path. AreNamed a.now names.now path.items) }
    ensures only { IfSome result (λ path. (other : List ℕ) → AreNamed a.now names.now other → other ≡ path.items) }
    ensures none { IfNone result ((path : List ℕ) → AreNamed a.now names.now path → ⊥) }
{
    let hold = a.hold();
    let mut path = Path::new();
    for name in names {
        path.push(number_named(hold, name)?);
    }
    Some(path)
}

/// The number of the position with this name.
fn number_named(hold: &Hold, name: &Name) -> Option<u8>
    ensures { result ≡ position (λ (p : Position). bytes_eq p.name name.now) hold.now.positions }
{
    let place = place_named(hold.positions(), name)?;
    Some(place as u8)
}

/// The place of the first position with this name.
fn place_named(positions: &[Position], name: &Name) -> Option<usize>
    ensures place { result ≡ position (λ (p : Position). bytes_eq p.name name.now) positions.now }
    ensures within { IfSome result (λ at. at < length positions.now) }
{
    positions
        .iter()
        .position(|position| has_name(position, name))
}

fn has_name(position: &Position, name: &Name) -> bool
    ensures { result ≡ bytes_eq position.now.name name.now }
{
    position.name.bytes() == name.bytes()
}

/// The flight with this plan.
fn with_plan(s: FlightState, plan: Path) -> FlightState
    ensures { result ≡ record s { plan = Some plan } }
{
    let mut planned = s;
    planned.plan = Some(plan);
    planned
}

/// The flight whose plan is dropped.
fn without_plan(alloc: Global, s: FlightState) -> Result<FlightState, NoMemory>
    requires changes { can_add_all s.base s.lmcs ≡ true }
    requires edition { s.edition ≤ 1000000000 }
    requires unplanned { s.plan ≡ None }
    ensures { IfOk result (λ loaded. loaded ≡ without_plan s.stage s) }
{
    match s.stage {
        Stage::Departed => Ok(s),
        Stage::Working | Stage::Planned | Stage::Released => in_work_again(alloc, s),
    }
}

/// The flight in work again, with its late changes folded into its figures.
fn in_work_again(alloc: Global, s: FlightState) -> Result<FlightState, NoMemory>
    requires changes { can_add_all s.base s.lmcs ≡ true }
    requires edition { s.edition ≤ 1000000000 }
    ensures { IfOk result (λ loaded. loaded ≡ in_work_again s) }
{
    let base = effective(alloc, &s)?;
    Ok(FlightState {
        leg: s.leg,
        edition: LAST_EDITION.min(s.edition + 1),
        stage: Stage::Working,
        base,
        plan: None,
        lmcs: Lmcs::new(alloc),
        releases: s.releases,
    })
}
