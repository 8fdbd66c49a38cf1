//! What the office answers to an act, before anything is kept.

ghost use Rattle.std.specs.Prelude.{◌≡◌, ◌<◌, ◌+◌, [], None, IfOk};
ghost use Rattle.aircraft_file.specs.Craft.{Craft};
ghost use Rattle.flight_history.specs.declared.entry.Act.TheVariants as act;
ghost use Rattle.flight_history.specs.Step.{step};
ghost use Rattle.flight_state.specs.Effective.{KeepsLimits};
ghost use Rattle.flight_state.specs.declared.state.Stage.TheVariants.{Working};
ghost use Rattle.editions.specs.Answers.{IsAnswer, IsAnswerWith, MakesSound};
ghost use Rattle.editions.specs.Sound.{IsReady, IsTaskAnswer};

use crate::documents::{broken_by, row_of, sheet_reply};
use crate::flights::Flight;
use crate::reasons::{
    is_released, no_more_editions, no_plan, not_current, not_released, not_shown,
};
use aircraft_file::Aircraft;
use base_words::NoMemory;
use flight_history::{Act, FigurePart, Refusal, Reply, What, copy_of, new_flight, replaced};
use flight_row::aircraft_of;
use flight_state::{FlightKey, FlightState, Leg, Lmc, Lmcs, Stage, effective};
use hold_limits::Path;
use last_minute::{LmcFault, apply_lmc};
use std::alloc::Global;
use trim::Figures;

/// The most releases that are counted.
const MOST_RELEASES: u32 = 1_000_000_000;

/// What is to be done about an act.
#[derive(Debug, Drop)]
pub enum Answer {
    Refused(Refusal),
    /// This is answered, and nothing changes.
    Told(Reply),
    /// The flight is to stand so, and then this is answered.
    Changed(FlightState, Reply),
}

/// The flight in work at its next edition, with these figures.
fn in_work(alloc: Global, flight: &FlightState, base: Figures) -> FlightState
    requires { flight.now.edition < 1000000000 }
    ensures { result ≡ record flight.now { edition = flight.now.edition + 1; stage = Working; base = base; plan = None; lmcs = [] } }
{
    FlightState {
        leg: flight.leg,
        edition: flight.edition + 1,
        stage: Stage::Working,
        base,
        plan: None,
        lmcs: Lmcs::new(alloc),
        releases: flight.releases,
    }
}

/// A part of the figures is replaced, with the late changes folded into them.
fn answer_set(
    alloc: Global,
    flight: &FlightState,
    edition: u32,
    part: &FigurePart,
) -> Result<Answer, NoMemory>
    requires { KeepsLimits flight.now }
    ensures { (a : Craft) → IfOk result (IsAnswerWith a flight.now (act.Set edition part.now)) }
{
    if let Some(refusal) = not_current(flight, edition) {
        return Ok(Answer::Refused(refusal));
    }
    if let Some(refusal) = no_more_editions(flight) {
        return Ok(Answer::Refused(refusal));
    }
    let base = replaced(alloc, effective(alloc, flight)?, part)?;
    let next = in_work(alloc, flight, base);
    let reply = Reply::Edition(next.edition);
    Ok(Answer::Changed(next, reply))
}

/// The loading task is asked for.
fn answer_take(alloc: Global, flight: &Flight, edition: u32) -> Result<Answer, NoMemory>
    ensures { (a : Craft) → IsTaskAnswer a flight.now.state flight.now.task
        → IfOk result (IsAnswerWith a flight.now.state (act.Take edition)) }
{
    if let Some(refusal) = not_current(&flight.state, edition) {
        return Ok(Answer::Refused(refusal));
    }
    match &flight.task {
        Ok(task) => Ok(Answer::Told(Reply::Task(task.copy(alloc)?))),
        Err(fault) => Ok(Answer::Refused(Refusal::Trim(*fault))),
    }
}

/// A plan is installed, with the late changes folded into the figures.
fn answer_install(
    alloc: Global,
    flight: &FlightState,
    edition: u32,
    path: &Path,
    same: bool,
) -> Result<Answer, NoMemory>
    requires { KeepsLimits flight.now }
    ensures { (a : Craft) → IfOk result (IsAnswerWith a flight.now (act.Install edition path.now same)) }
{
    if let Some(refusal) = not_current(flight, edition) {
        return Ok(Answer::Refused(refusal));
    }
    if !same {
        return Ok(Answer::Refused(Refusal::OtherTask));
    }
    let next = FlightState {
        leg: flight.leg,
        edition: flight.edition,
        stage: Stage::Planned,
        base: effective(alloc, flight)?,
        plan: Some(copy_of(path)),
        lmcs: Lmcs::new(alloc),
        releases: flight.releases,
    };
    let reply = Reply::Edition(next.edition);
    Ok(Answer::Changed(next, reply))
}

/// The number of releases after one more, where the flight was planned.
fn releases_after(flight: &FlightState) -> u32
    ensures { result ≡ (step flight.now (act.Release 0)).releases }
{
    if flight.stage == Stage::Planned {
        MOST_RELEASES.min(flight.releases.saturating_add(1))
    } else {
        flight.releases
    }
}

/// The flight after its release.
fn released(alloc: Global, flight: &FlightState) -> Result<FlightState, NoMemory>
    ensures { IfOk result (λ next. next ≡ step flight.now (act.Release 0)) }
{
    let mut next = flight.clone()?;
    next.stage = Stage::Released;
    next.releases = releases_after(flight);
    Ok(next)
}

/// A flight whose plan breaks no rule is released. On a released flight the sheet is given again.
fn answer_release(
    alloc: Global,
    a: &Aircraft,
    flight: &FlightState,
    edition: u32,
) -> Result<Answer, NoMemory>
    requires { IsReady a.now flight.now }
    ensures { IfOk result (IsAnswerWith a.now flight.now (act.Release edition)) }
{
    if let Some(refusal) = not_current(flight, edition) {
        return Ok(Answer::Refused(refusal));
    }
    if let Some(refusal) = no_plan(flight) {
        return Ok(Answer::Refused(refusal));
    }
    let rules = broken_by(alloc, a, flight)?;
    if !rules.is_empty() {
        return Ok(Answer::Refused(Refusal::Broken(rules)));
    }
    if is_released(flight) {
        return Ok(Answer::Told(sheet_reply(alloc, a, flight)?));
    }
    let next = released(alloc, flight)?;
    let reply = sheet_reply(alloc, a, &next)?;
    Ok(Answer::Changed(next, reply))
}

/// A late change of a released flight.
fn answer_late(
    alloc: Global,
    a: &Aircraft,
    flight: &FlightState,
    edition: u32,
    lmc: &Lmc,
) -> Result<Answer, NoMemory>
    requires { IsReady a.now flight.now }
    ensures { IfOk result (IsAnswerWith a.now flight.now (act.Late edition lmc.now)) }
{
    if let Some(refusal) = not_current(flight, edition) {
        return Ok(Answer::Refused(refusal));
    }
    if let Some(refusal) = not_released(flight) {
        return Ok(Answer::Refused(refusal));
    }
    let next = match apply_lmc(alloc, a, flight, lmc) {
        Ok(next) => next,
        Err(LmcFault::NoMemory) => return Err(NoMemory),
        Err(fault) => return Ok(Answer::Refused(Refusal::Late(fault))),
    };
    if let Some(refusal) = no_more_editions(flight) {
        return Ok(Answer::Refused(refusal));
    }
    let reply = Reply::Edition(next.edition);
    Ok(Answer::Changed(next, reply))
}

/// A released flight is worked on again, with the late changes folded into its figures.
fn answer_reopen(alloc: Global, flight: &FlightState, edition: u32) -> Result<Answer, NoMemory>
    requires { KeepsLimits flight.now }
    ensures { (a : Craft) → IfOk result (IsAnswerWith a flight.now (act.Reopen edition)) }
{
    if let Some(refusal) = not_current(flight, edition) {
        return Ok(Answer::Refused(refusal));
    }
    if let Some(refusal) = not_released(flight) {
        return Ok(Answer::Refused(refusal));
    }
    if let Some(refusal) = no_more_editions(flight) {
        return Ok(Answer::Refused(refusal));
    }
    let next = in_work(alloc, flight, effective(alloc, flight)?);
    let reply = Reply::Edition(next.edition);
    Ok(Answer::Changed(next, reply))
}

/// A released flight departs.
fn answer_depart(alloc: Global, flight: &FlightState, edition: u32) -> Result<Answer, NoMemory>
    ensures { (a : Craft) → IfOk result (IsAnswerWith a flight.now (act.Depart edition)) }
{
    if let Some(refusal) = not_current(flight, edition) {
        return Ok(Answer::Refused(refusal));
    }
    if let Some(refusal) = not_released(flight) {
        return Ok(Answer::Refused(refusal));
    }
    let mut next = flight.clone()?;
    next.stage = Stage::Departed;
    Ok(Answer::Changed(next, Reply::Edition(flight.edition)))
}

/// The row or a document of a flight is asked for.
fn answer_show(
    alloc: Global,
    a: &Aircraft,
    flight: &FlightState,
    what: What,
) -> Result<Answer, NoMemory>
    requires { IsReady a.now flight.now }
    ensures { IfOk result (IsAnswerWith a.now flight.now (act.Show what)) }
{
    if let Some(refusal) = not_shown(flight, what) {
        return Ok(Answer::Refused(refusal));
    }
    if what == What::State {
        Ok(Answer::Told(Reply::Row(row_of(alloc, a, flight)?)))
    } else {
        Ok(Answer::Told(sheet_reply(alloc, a, flight)?))
    }
}

/// The answer to an act at a flight that is there.
pub fn answer_there(
    alloc: Global,
    a: &Aircraft,
    flight: &Flight,
    asked: &Act,
) -> Result<Answer, NoMemory>
    requires ready { IsReady a.now flight.now.state }
    requires task { IsTaskAnswer a.now flight.now.state flight.now.task }
    ensures { IfOk result (IsAnswerWith a.now flight.now.state asked.now) }
{
    let state = &flight.state;
    match asked {
        Act::NewFlight { .. } => Ok(Answer::Refused(Refusal::Exists)),
        Act::Set { edition, part } => answer_set(alloc, state, *edition, part),
        Act::Take { edition } => answer_take(alloc, flight, *edition),
        Act::Install {
            edition,
            path,
            same,
        } => answer_install(alloc, state, *edition, path, *same),
        Act::Release { edition } => answer_release(alloc, a, state, *edition),
        Act::Late { edition, lmc } => answer_late(alloc, a, state, *edition, lmc),
        Act::Reopen { edition } => answer_reopen(alloc, state, *edition),
        Act::Depart { edition } => answer_depart(alloc, state, *edition),
        Act::Show { what } => answer_show(alloc, a, state, *what),
    }
}

/// A flight is opened.
fn answer_new(alloc: Global, fleet: &[Aircraft], full: bool, leg: &Leg) -> Result<Answer, NoMemory>
    ensures answer { IfOk result (IsAnswer fleet.now full None (act.NewFlight leg.now)) }
    ensures sound { IfOk result (MakesSound fleet.now) }
{
    let Some(a) = aircraft_of(fleet, leg) else {
        return Ok(Answer::Refused(Refusal::NoAircraft));
    };
    if full {
        return Ok(Answer::Refused(Refusal::OfficeFull));
    }
    let next = new_flight(alloc, a, *leg);
    Ok(Answer::Changed(next, Reply::Opened(FlightKey::of(leg))))
}

/// The answer to an act where no flight of its key is there.
pub fn answer_elsewhere(
    alloc: Global,
    fleet: &[Aircraft],
    full: bool,
    asked: &Act,
) -> Result<Answer, NoMemory>
    ensures answer { IfOk result (IsAnswer fleet.now full None asked.now) }
    ensures sound { IfOk result (MakesSound fleet.now) }
{
    match asked {
        Act::NewFlight { leg } => answer_new(alloc, fleet, full, leg),
        _ => Ok(Answer::Refused(Refusal::NoFlight)),
    }
}
