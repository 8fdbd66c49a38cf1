//! The standing of a flight by its definition, part by part: a plain, slow program, which goes through the accepted acts
//! once for each part. The office keeps one state for each flight and changes it; tests compare the two.

ghost use Rattle.std.specs.Prelude.{◌≡◌, ◌+◌, min, [], ◌∷◌, ◌++◌, ◌&&◌, count_by, true, option_map, unwrap_or, IfOk, IfSome};
ghost use Rattle.flight_state.specs.Effective.{can_add_all};
ghost use Rattle.flight_history.specs.Plain.{acts_in, figures_by, IsLastFold};
ghost use Rattle.flight_history.specs.Standing.{raises_edition, folds_lates, stage_by, plan_by, is_release, is_planned, stage_after, plan_after, figures_after, base_after, lates_after, late_by, lates_in, releases_among, standing_from};

use crate::entry::{Act, Entry, copy_of};
use crate::request::replaced;
use base_words::NoMemory;
use flight_state::{FlightState, Lmcs, Stage, can_add, effective, with_change};
use hold_limits::Path;
use std::alloc::Global;
use trim::Figures;

/// The most releases that are counted.
const MOST_RELEASES: u32 = 1_000_000_000;

/// Whether the act raises the edition.
fn raises_edition(act: &Act) -> bool
    ensures { result ≡ raises_edition act.now }
{
    match act {
        Act::Set { .. } | Act::Late { .. } | Act::Reopen { .. } => true,
        _ => false,
    }
}

/// Whether late changes are folded into the figures at the act.
fn folds_lates(act: &Act) -> bool
    ensures { result ≡ folds_lates act.now }
{
    match act {
        Act::NewFlight { .. } | Act::Set { .. } | Act::Install { .. } | Act::Reopen { .. } => true,
        _ => false,
    }
}

/// Whether the act releases its flight.
fn is_release(act: &Act) -> bool
    ensures { result ≡ is_release act.now }
{
    match act {
        Act::Release { .. } => true,
        _ => false,
    }
}

/// The stage that the act leads to.
fn stage_by(act: &Act) -> Option<Stage>
    ensures { result ≡ stage_by act.now }
{
    match act {
        Act::NewFlight { .. } | Act::Set { .. } | Act::Reopen { .. } => Some(Stage::Working),
        Act::Install { .. } => Some(Stage::Planned),
        Act::Release { .. } => Some(Stage::Released),
        Act::Depart { .. } => Some(Stage::Departed),
        _ => None,
    }
}

/// How many of these entries raise the edition.
fn raises_among(entries: &[Entry]) -> usize
    ensures { result ≡ count_by raises_edition (acts_in entries.now) }
{
    let mut raises = 0;
    for entry in entries {
        if raises_edition(&entry.act) {
            raises += 1;
        }
    }
    raises
}

/// The stage after these acts.
fn stage_after(opened: &FlightState, entries: &[Entry]) -> Stage
    ensures { result ≡ stage_after opened.now (acts_in entries.now) }
{
    let mut stage = opened.stage;
    for entry in entries {
        stage = stage_by(&entry.act).unwrap_or(stage);
    }
    stage
}

/// The same plan.
fn same_plan(plan: &Option<Path>) -> Option<Path>
    ensures { result ≡ plan.now }
{
    match plan {
        Some(path) => Some(copy_of(path)),
        None => None,
    }
}

/// The plan after one more act.
fn plan_then(plan: Option<Path>, act: &Act) -> Option<Path>
    ensures { result ≡ unwrap_or (plan_by act.now) plan }
{
    match act {
        Act::NewFlight { .. } | Act::Set { .. } | Act::Reopen { .. } => None,
        Act::Install { path, .. } => Some(copy_of(path)),
        _ => plan,
    }
}

/// The plan after these acts.
fn plan_after(opened: &FlightState, entries: &[Entry]) -> Option<Path>
    ensures { result ≡ plan_after opened.now (acts_in entries.now) }
{
    let mut plan = same_plan(&opened.plan);
    for entry in entries {
        plan = plan_then(plan, &entry.act);
    }
    plan
}

/// The figures after one more act. None where a late change leaves a limit.
fn figures_then(alloc: Global, figures: Figures, act: &Act) -> Result<Option<Figures>, NoMemory>
    ensures { IfOk result (λ found. IfSome found (λ next. next ≡ figures_by figures act.now)) }
{
    match act {
        Act::Set { part, .. } => Ok(Some(replaced(alloc, figures, part)?)),
        Act::Late { lmc, .. } => {
            if !can_add(&figures, lmc) {
                return Ok(None);
            }
            Ok(Some(with_change(alloc, figures, lmc)?))
        }
        _ => Ok(Some(figures)),
    }
}

/// The effective figures after these acts. None where a late change leaves a limit.
fn figures_after(
    alloc: Global,
    opened: &FlightState,
    entries: &[Entry],
) -> Result<Option<Figures>, NoMemory>
    requires { can_add_all opened.now.base opened.now.lmcs ≡ true }
    ensures { IfOk result (λ found. IfSome found (λ figures. figures ≡ figures_after opened.now (acts_in entries.now))) }
{
    let mut figures = effective(alloc, opened)?;
    for entry in entries {
        match figures_then(alloc, figures, &entry.act)? {
            Some(next) => figures = next,
            None => return Ok(None),
        }
    }
    Ok(Some(figures))
}

/// How many of these entries come up to the last one at which late changes are folded into the figures.
fn last_fold(entries: &[Entry]) -> usize
    ensures { IsLastFold entries.now result }
{
    let mut place = 0;
    for at in 0..entries.len() {
        if folds_lates(&entries[at].act) {
            place = at + 1;
        }
    }
    place
}

/// The base figures after these acts. None where a late change leaves a limit.
fn base_after(
    alloc: Global,
    opened: &FlightState,
    entries: &[Entry],
) -> Result<Option<Figures>, NoMemory>
    requires { can_add_all opened.now.base opened.now.lmcs ≡ true }
    ensures { IfOk result (λ found. IfSome found (λ base. base ≡ base_after opened.now (acts_in entries.now))) }
{
    let place = last_fold(entries);
    if place == 0 {
        Ok(Some(opened.base.clone()?))
    } else {
        figures_after(alloc, opened, &entries[..place])
    }
}

/// The late changes after one more act. None where there are more than ten.
fn lates_with(alloc: Global, lates: Lmcs, act: &Act) -> Result<Option<Lmcs>, NoMemory>
    ensures { IfOk result (λ found. IfSome found (λ next. next ≡ unwrap_or (option_map (λ l. lates ++ l ∷ []) (late_by act.now)) lates)) }
{
    let Act::Late { lmc, .. } = act else {
        return Ok(Some(lates));
    };
    if lates.is_full() {
        return Ok(None);
    }
    let mut lates = lates;
    lates.push(*lmc)?;
    Ok(Some(lates))
}

/// The late changes with those of these acts behind them. None where there are more than ten.
fn lates_then(alloc: Global, first: Lmcs, entries: &[Entry]) -> Result<Option<Lmcs>, NoMemory>
    ensures { IfOk result (λ found. IfSome found (λ lates. lates ≡ first ++ lates_in (acts_in entries.now))) }
{
    let mut lates = first;
    for entry in entries {
        match lates_with(alloc, lates, &entry.act)? {
            Some(next) => lates = next,
            None => return Ok(None),
        }
    }
    Ok(Some(lates))
}

/// The late changes after these acts, which are not folded into the figures. None where there are more than ten.
fn lates_after(
    alloc: Global,
    opened: &FlightState,
    entries: &[Entry],
) -> Result<Option<Lmcs>, NoMemory>
    ensures { IfOk result (λ found. IfSome found (λ lates. lates ≡ lates_after opened.now (acts_in entries.now))) }
{
    let place = last_fold(entries);
    if place == 0 {
        lates_then(alloc, opened.lmcs.clone()?, entries)
    } else {
        lates_then(alloc, Lmcs::new(alloc), &entries[place..])
    }
}

/// Whether the flight is planned.
fn is_planned(stage: Stage) -> bool
    ensures { result ≡ is_planned stage }
{
    match stage {
        Stage::Planned => true,
        _ => false,
    }
}

/// Whether the act releases a flight that is planned after these acts.
fn releases_planned(opened: &FlightState, before: &[Entry], act: &Act) -> bool
    ensures { result ≡ (is_release act.now && is_planned (stage_after opened.now (acts_in before.now))) }
{
    is_release(act) && is_planned(stage_after(opened, before))
}

/// How many of these acts release a flight that is planned.
fn releases_among(opened: &FlightState, entries: &[Entry]) -> usize
    ensures { result ≡ releases_among opened.now [] (acts_in entries.now) }
{
    let mut releases = 0;
    for at in 0..entries.len() {
        if releases_planned(opened, &entries[..at], &entries[at].act) {
            releases += 1;
        }
    }
    releases
}

/// So many releases and so many more, counted up to 1,000,000,000.
fn releases_with(first: u32, more: usize) -> u32
    ensures { result ≡ min (first + more) 1000000000 }
{
    match u32::try_from(more) {
        Ok(more) => MOST_RELEASES.min(first.saturating_add(more)),
        Err(_) => MOST_RELEASES,
    }
}

/// The standing of a flight that began as this one, after the acts of these entries, which were all accepted. None where a
/// number would pass what its type can hold, a late change leaves a limit, or there are more than ten.
pub fn standing_after(
    alloc: Global,
    opened: &FlightState,
    entries: &[Entry],
) -> Result<Option<FlightState>, NoMemory>
    requires { can_add_all opened.now.base opened.now.lmcs ≡ true }
    ensures { IfOk result (λ found. IfSome found (λ s. s ≡ standing_from opened.now (acts_in entries.now))) }
{
    let Ok(raises) = u32::try_from(raises_among(entries)) else {
        return Ok(None);
    };
    let Some(edition) = opened.edition.checked_add(raises) else {
        return Ok(None);
    };
    let releases = releases_with(opened.releases, releases_among(opened, entries));
    let Some(base) = base_after(alloc, opened, entries)? else {
        return Ok(None);
    };
    let Some(lmcs) = lates_after(alloc, opened, entries)? else {
        return Ok(None);
    };
    Ok(Some(FlightState {
        leg: opened.leg,
        edition,
        stage: stage_after(opened, entries),
        base,
        plan: plan_after(opened, entries),
        lmcs,
        releases,
    }))
}
