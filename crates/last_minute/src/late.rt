//! Late changes of a released flight, within the tolerances of its operator.

ghost use Rattle.std.specs.Prelude.{◌≡◌, ◌≤◌, ◌<◌, ◌-ℤ◌, ◌≤ℤ◌, pos, unsigned_abs, nat_le, true, length, IsSome, IfOk, IfErr, OnOk};
ghost use Rattle.payload.specs.Load.{most_loose};
ghost use Rattle.trim.specs.Limits.{KeepsLimits};
ghost use Rattle.trim.specs.Loads.{figure_mass};
ghost use Rattle.trim.specs.Refusals.{CanBeWeighed};
ghost use Rattle.trim.specs.Rules.{AreBroken};
ghost use Rattle.flight_state.specs.Effective.{can_add_load, changed_load, load_at};
ghost use Rattle.last_minute.specs.Planned.{HasBalance, path_of};
ghost use Rattle.last_minute.specs.LateChange.{is_there, next_state, IsOver, IsAllowed, IsRefused};

use crate::fault::LmcFault;
use crate::loads::bulk_number;
use crate::unplaced::{Unplaced, weigh_unplaced};
use aircraft_file::Aircraft;
use flight_state::{FlightState, Lmc, can_add, changed_load, effective, with_change};
use hold_limits::Name;
use mass_units::{Kg, Ticks};
use payload::{cabin_load, loose_mass};
use std::alloc::Global;
use trim::{Figures, LooseFigure, Rules, broken_rules};

/// The state with one late change more, and its edition one higher.
///
/// A late change is refused where ten are there already; where the aircraft does not have its zone or its bulk position,
/// or a number would leave its limits; where the cabin then has a fault; where all late changes together change the
/// zero-fuel mass or the zero-fuel index by more than the aircraft's tolerance, up or down; and where the flight then
/// breaks a rule. The figures before all late changes are those of the release.
pub fn apply_lmc(
    alloc: Global,
    a: &Aircraft,
    s: &FlightState,
    l: &Lmc,
) -> Result<FlightState, LmcFault>
    requires { HasBalance a.now s.now }
    ensures changed { IfOk result (λ next. next ≡ next_state s.now l.now) }
    ensures allowed { IfOk result (λ _. IsAllowed a.now s.now l.now) }
    ensures refused { IfErr result (IsRefused a.now s.now l.now) }
{
    if s.lmcs.is_full() {
        return Err(LmcFault::TooMany);
    }
    let figures = effective(alloc, s)?;
    if !is_there(a, &figures, l) {
        return Err(LmcFault::NotThere);
    }
    let figures = with_change(alloc, figures, l)?;
    if let Err(fault) = cabin_load(&figures.cabin, a.zones(), a.averages()) {
        return Err(LmcFault::Pay(fault));
    }
    keep_tolerances(
        a,
        weigh_unplaced(alloc, a, &s.base)?,
        weigh_unplaced(alloc, a, &figures)?,
    )?;
    let rules = rules_broken(a, s, &figures);
    if !rules.is_empty() {
        return Err(LmcFault::Breaks(rules));
    }
    with_one_more(alloc, s, l)
}

/// Whether the late change can be made: the aircraft has its zone or its bulk position, no number leaves its limits, and
/// the loose load stays within 20,000 kg.
fn is_there(a: &Aircraft, figures: &Figures, l: &Lmc) -> bool
    ensures { result ≡ is_there a.now figures.now l.now }
{
    match l {
        Lmc::Cabin { zone, .. } => { usize::from(*zone) <= a.zones().len() && can_add(figures, l) }
        Lmc::Loose {
            position,
            mass,
            pieces,
        } => {
            bulk_number(a.hold(), position.bytes()).is_some()
                && (can_add(figures, l)
                    && is_light(a, figures.loose.as_slice(), position, *mass, *pieces))
        }
    }
}

/// Whether the loose load on the position stays within 20,000 kg with the change.
fn is_light(a: &Aircraft, loads: &[LooseFigure], position: &Name, mass: i32, pieces: i16) -> bool
    requires { can_add_load position.now mass pieces loads.now ≡ true }
    ensures { result ≡ nat_le (figure_mass a.now (changed_load (load_at position.now loads.now) mass pieces)) most_loose }
{
    let load = changed_load(loads, position, mass, pieces);
    loose_mass(load.mass, load.pieces, a.averages()).is_some()
}

/// Tests that the zero-fuel mass and the zero-fuel index differ by no more than the tolerances of the aircraft.
fn keep_tolerances(a: &Aircraft, base: Unplaced, next: Unplaced) -> Result<(), LmcFault>
    requires base { (base.mass ≤ 100000000) × (unsigned_abs base.index ≤ 1000000000000000000) }
    requires next { (next.mass ≤ 100000000) × (unsigned_abs next.index ≤ 1000000000000000000) }
    ensures mass { OnOk result (unsigned_abs (pos next.mass -ℤ pos base.mass) ≤ a.now.tolerance.mass.0) }
    ensures index { OnOk result (pos (unsigned_abs (next.index -ℤ base.index)) ≤ℤ a.now.tolerance.index.0) }
    ensures refused { IfErr result (IsOver a.now (pos next.mass -ℤ pos base.mass) (next.index -ℤ base.index)) }
{
    let mass = next.mass.abs_diff(base.mass);
    if mass > a.tolerance_mass().0 {
        return Err(LmcFault::MassOver(Kg(mass)));
    }
    let index = index_difference(&base, &next);
    if index.0 > a.tolerance_index().0 {
        return Err(LmcFault::IndexOver(index));
    }
    Ok(())
}

/// How far the two indices are apart.
fn index_difference(base: &Unplaced, next: &Unplaced) -> Ticks
    requires base { unsigned_abs base.now.index ≤ 1000000000000000000 }
    requires next { unsigned_abs next.now.index ≤ 1000000000000000000 }
    ensures { result.0 ≡ pos (unsigned_abs (next.now.index -ℤ base.now.index)) }
{
    Ticks((next.index - base.index).abs())
}

/// The rules that the flight breaks with these figures.
fn rules_broken(a: &Aircraft, s: &FlightState, figures: &Figures) -> Rules
    requires limits { KeepsLimits figures.now }
    requires plan { IsSome s.now.plan }
    requires complete { length (path_of s.now) ≡ length figures.now.containers }
    requires weighed { CanBeWeighed a.now figures.now }
    ensures { AreBroken a.now figures.now (path_of s.now) result.items }
{
    let Some(path) = &s.plan else {
        unreachable!();
    };
    match broken_rules(a, figures, path) {
        Ok(rules) => rules,
        Err(_) => unreachable!(),
    }
}

/// The state with one late change more, and its edition one higher.
fn with_one_more(alloc: Global, s: &FlightState, l: &Lmc) -> Result<FlightState, LmcFault>
    requires room { length s.now.lmcs < 10 }
    requires edition { s.now.edition ≤ 1000000000 }
    ensures changed { IfOk result (λ next. next ≡ next_state s.now l.now) }
    ensures refused { IfErr result (λ fault. fault ≡ LmcFault.NoMemory) }
{
    let mut next = s.clone()?;
    next.edition += 1;
    next.lmcs.push(*l)?;
    Ok(next)
}
