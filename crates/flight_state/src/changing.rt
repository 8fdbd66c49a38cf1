//! The figures of a flight with its late changes.

ghost use Rattle.std.specs.Prelude.{◌≡◌, ◌-◌, ◌≤◌, ◌<◌, ◌^◌, length, find, set, true, IfOk, IfSome};
ghost use Rattle.std.specs.Cow.{cow_value};
ghost use Rattle.std.specs.Option.{option_copied};
ghost use Rattle.flight_state.specs.Effective.{changed, stays_within, up_to_zone, count_in, changed_count, is_at, load_at, place_at, count_with, changed_load, with_load, with_change, with_changes, effective, can_add_load, can_add, can_add_all};

use crate::change::Lmc;
use crate::state::FlightState;
use base_words::NoMemory;
use hold_limits::Name;
use mass_units::Kg;
use payload::{Cabin, ZoneCount};
use std::alloc::Global;
use std::borrow::Cow;
use trim::{Figures, LooseFigure, LooseList};

/// The most persons of a kind in a zone, and the most pieces of a loose load.
const MOST_COUNT: i32 = 999;

/// The greatest mass of a loose load that is told, in kilograms.
const MOST_MASS: i64 = 1_000_000;

/// The most zones of a cabin.
const MOST_ZONES: u8 = 16;

/// The most loose loads of a flight.
const MOST_LOADS: usize = 64;

/// A zone without passengers.
const NOBODY: ZoneCount = ZoneCount {
    adults: 0,
    children: 0,
    infants: 0,
};

/// The figures of a flight with its late changes added in their order.
pub fn effective(alloc: Global, s: &FlightState) -> Result<Figures, NoMemory>
    requires { can_add_all s.now.base s.now.lmcs ≡ true }
    ensures { IfOk result (λ figures. figures ≡ effective s.now) }
{
    with_changes(alloc, s.base.clone()?, s.lmcs.as_slice())
}

/// The figures of a flight with its late changes, to be read: where there are no late changes they are not copied.
pub fn effective_figures<'a>(
    alloc: Global,
    s: &'a FlightState,
) -> Result<Cow<'a, Figures>, NoMemory>
    requires { can_add_all s.now.base s.now.lmcs ≡ true }
    ensures { IfOk result (λ figures. cow_value figures ≡ effective s.now) }
{
    if s.lmcs.as_slice().is_empty() {
        return Ok(Cow::Borrowed(&s.base));
    }
    Ok(Cow::Owned(effective(alloc, s)?))
}

/// The figures with late changes added in their order.
fn with_changes(alloc: Global, base: Figures, changes: &[Lmc]) -> Result<Figures, NoMemory>
    requires { can_add_all base changes.now ≡ true }
    ensures { IfOk result (λ figures. figures ≡ with_changes base changes.now) }
{
    let mut figures = base;
    for change in changes {
        let next = with_change(alloc, figures, change)?;
        figures = next;
    }
    Ok(figures)
}

/// Whether the late change can be added to the figures: whether it leaves each number that it changes from 0 to its
/// limit, and no more than 64 loose loads in all.
pub fn can_add(figures: &Figures, change: &Lmc) -> bool
    ensures { result ≡ can_add figures.now change.now }
{
    match change {
        Lmc::Cabin {
            zone,
            adults,
            children,
            infants,
        } => {
            let count = count_in(*zone, figures.cabin.as_slice());
            (1 <= *zone && *zone <= MOST_ZONES)
                && (stays_within(count.adults, *adults)
                    && (stays_within(count.children, *children)
                        && stays_within(count.infants, *infants)))
        }
        Lmc::Loose {
            position,
            mass,
            pieces,
        } => can_add_load(figures.loose.as_slice(), position, *mass, *pieces),
    }
}

/// The figures with a late change added.
pub fn with_change(alloc: Global, figures: Figures, change: &Lmc) -> Result<Figures, NoMemory>
    requires { can_add figures change.now ≡ true }
    ensures { IfOk result (λ changed. changed ≡ with_change figures change.now) }
{
    let Figures {
        dry,
        fuel,
        regulated,
        cabin,
        containers,
        loose,
    } = figures;
    match change {
        Lmc::Cabin {
            zone,
            adults,
            children,
            infants,
        } => {
            let count = count_in(*zone, cabin.as_slice());
            let count = changed_count(&count, *adults, *children, *infants);
            Ok(Figures {
                dry,
                fuel,
                regulated,
                cabin: with_count(cabin, *zone, count)?,
                containers,
                loose,
            })
        }
        Lmc::Loose {
            position,
            mass,
            pieces,
        } => Ok(Figures {
            dry,
            fuel,
            regulated,
            cabin,
            containers,
            loose: with_load(loose, position, *mass, *pieces)?,
        }),
    }
}

/// Whether the change leaves the number from 0 to 999.
fn stays_within(number: u16, change: i16) -> bool
    ensures { result ≡ stays_within 999 number change }
{
    let sum = i32::from(number) + i32::from(change);
    0 <= sum && sum <= MOST_COUNT
}

/// The number with the change.
fn changed(number: u16, change: i16) -> u16
    requires { stays_within 999 number change ≡ true }
    ensures { result ≡ changed number change }
{
    (i32::from(number) + i32::from(change)).unsigned_abs() as u16
}

/// Whether the change leaves the mass from 0 to 1,000,000 kg.
fn mass_stays_within(mass: Kg, change: i32) -> bool
    ensures { result ≡ stays_within 1000000 mass.0 change }
{
    let sum = i64::from(mass.0) + i64::from(change);
    0 <= sum && sum <= MOST_MASS
}

/// The mass with the change.
fn changed_mass(mass: Kg, change: i32) -> Kg
    requires { stays_within 1000000 mass.0 change ≡ true }
    ensures { result.0 ≡ changed mass.0 change }
{
    Kg((i64::from(mass.0) + i64::from(change)).unsigned_abs() as u32)
}

/// The count of a zone, which counts from 1. Nobody is in a zone without a count.
fn count_in(zone: u8, counts: &[ZoneCount]) -> ZoneCount
    ensures { result ≡ count_in zone counts.now }
{
    let at = usize::from(zone).saturating_sub(1);
    counts.get(at).copied().unwrap_or(NOBODY)
}

/// The count with the changes.
fn changed_count(count: &ZoneCount, adults: i16, children: i16, infants: i16) -> ZoneCount
    requires adults { stays_within 999 count.now.adults adults ≡ true }
    requires children { stays_within 999 count.now.children children ≡ true }
    requires infants { stays_within 999 count.now.infants infants ≡ true }
    ensures { result ≡ changed_count count.now adults children infants }
{
    ZoneCount {
        adults: changed(count.adults, adults),
        children: changed(count.children, children),
        infants: changed(count.infants, infants),
    }
}

/// The cabin with this count of a zone. Nobody is in a zone before it that had no count yet.
fn with_count(cabin: Cabin, zone: u8, count: ZoneCount) -> Result<Cabin, NoMemory>
    requires { 1 ≤ zone }
    ensures { IfOk result (λ changed. changed ≡ set (up_to_zone zone cabin) (zone - 1) count) }
{
    let mut counts = Vec::from(cabin);
    let zone = usize::from(zone);
    if counts.len() < zone {
        counts.resize(zone, NOBODY)?;
    }
    counts[zone - 1] = count;
    Ok(Cabin::from(counts))
}

/// Whether the loose load is on the position of this name.
fn is_at(name: &Name, figure: &LooseFigure) -> bool
    ensures { result ≡ is_at name.now figure.now }
{
    figure.position.bytes() == name.bytes()
}

/// The place of the first loose load on the position.
fn place_at(loads: &[LooseFigure], name: &Name) -> Option<usize>
    ensures place { result ≡ place_at name.now loads.now }
    ensures within { IfSome result (λ at. at < length loads.now) }
{
    loads.iter().position(|figure| is_at(name, figure))
}

/// The first loose load on the position.
fn first_at<'a>(loads: &'a [LooseFigure], name: &Name) -> Option<&'a LooseFigure>
    ensures { option_copied result ≡ find (is_at name.now) loads.now }
{
    loads.iter().find(|figure| is_at(name, figure))
}

/// The first loose load on the position, or nothing there.
fn load_at(loads: &[LooseFigure], name: &Name) -> LooseFigure
    ensures { result ≡ load_at name.now loads.now }
{
    match first_at(loads, name) {
        Some(figure) => *figure,
        None => LooseFigure {
            position: *name,
            mass: Kg(0),
            pieces: 0,
        },
    }
}

/// How many loose loads there are with one on the position among them.
fn count_with(loads: &[LooseFigure], name: &Name) -> usize
    requires { length loads.now < 2 ^ 63 }
    ensures { result ≡ count_with name.now loads.now }
{
    match place_at(loads, name) {
        Some(_) => loads.len(),
        None => loads.len() + 1,
    }
}

/// Whether a change of the loose loads leaves mass and pieces from 0 to their limits, and no more than 64 loose loads.
fn can_add_load(loads: &[LooseFigure], name: &Name, mass: i32, pieces: i16) -> bool
    requires { length loads.now < 2 ^ 63 }
    ensures { result ≡ can_add_load name.now mass pieces loads.now }
{
    let load = load_at(loads, name);
    mass_stays_within(load.mass, mass)
        && (stays_within(load.pieces, pieces) && count_with(loads, name) <= MOST_LOADS)
}

/// The first loose load on the position with the change, or the change alone where nothing is there.
pub fn changed_load(loads: &[LooseFigure], name: &Name, mass: i32, pieces: i16) -> LooseFigure
    requires { can_add_load name.now mass pieces loads.now ≡ true }
    ensures { result ≡ changed_load (load_at name.now loads.now) mass pieces }
{
    let load = load_at(loads, name);
    LooseFigure {
        position: load.position,
        mass: changed_mass(load.mass, mass),
        pieces: changed(load.pieces, pieces),
    }
}

/// The loose loads with the first one on the position changed, or with a new last one.
fn with_load(loose: LooseList, name: &Name, mass: i32, pieces: i16) -> Result<LooseList, NoMemory>
    requires { can_add_load name.now mass pieces loose ≡ true }
    ensures { IfOk result (λ changed. changed ≡ with_load name.now mass pieces loose) }
{
    let mut loads = Vec::from(loose);
    let load = changed_load(loads.as_slice(), name, mass, pieces);
    let Some(at) = place_at(loads.as_slice(), name) else {
        loads.push(load)?;
        return Ok(LooseList::from(loads));
    };
    loads[at] = load;
    Ok(LooseList::from(loads))
}
