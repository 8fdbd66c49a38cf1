//! What the figures of a flight weigh, and its indices without what the hold adds.

ghost use Rattle.std.specs.Prelude.{◌≡◌, ◌≤◌, ◌<◌, ◌^◌, ◌+ℤ◌, unsigned_abs, IfOk, IfErr};
ghost use Rattle.fuel_table.specs.Rows.{IsFuelIndex, IsOutside};
ghost use Rattle.payload.specs.Load.{load_of};
ghost use Rattle.payload.specs.PayFault.{IsFirstFault};
ghost use Rattle.payload.specs.declared.figures.PayFault.{PayFault};
ghost use Rattle.trim.specs.Limits.{KeepsLimits};
ghost use Rattle.trim.specs.Loads.{container_mass, loose_mass};
ghost use Rattle.trim.specs.Refusals.{HasCabin, IsUnweighed};
ghost use Rattle.trim.specs.Weighed.{IsWeighed};

use crate::fault::TrimFault;
use crate::figures::Figures;
use crate::loose::{LooseLoads, loose_loads};
use aircraft_file::Aircraft;
use hold_limits::{Item, Loose};
use mass_limits::MassInput;
use mass_units::{Kg, Ticks};
use payload::{Load, cabin_load};

/// What the figures of a flight weigh. A base is an index without what the hold adds.
#[derive(Debug, Drop)]
pub struct Weighed {
    pub input: MassInput,
    /// The base of the zero-fuel index.
    pub zero_fuel_base: Ticks,
    /// The base of the take-off index.
    pub take_off_base: Ticks,
    /// The base of the landing index.
    pub landing_base: Ticks,
    pub loose: LooseLoads,
}

/// Weighs a flight, or says for which first reason it cannot.
pub fn weigh(a: &Aircraft, f: &Figures) -> Result<Weighed, TrimFault>
    requires { KeepsLimits f.now }
    ensures weighed { IfOk result (IsWeighed a.now f.now) }
    ensures refused { IfErr result (IsUnweighed a.now f.now) }
{
    let take_off = fuel_index(a, f.fuel.take_off)?;
    let landing = fuel_index(a, Kg(f.fuel.take_off.0 - f.fuel.trip.0))?;
    let cabin = cabin_of(a, f)?;
    let loose = loose_loads(a, f.loose.as_slice())?;
    let containers = mass_of_containers(f.containers.as_slice());
    let traffic = Kg(cabin.mass.0 + containers + mass_of_loose(loose.as_slice()));
    let zero_fuel_base = sum(f.dry.index, cabin.index);
    Ok(Weighed {
        input: input_of(f, traffic),
        zero_fuel_base,
        take_off_base: sum(zero_fuel_base, take_off),
        landing_base: sum(zero_fuel_base, landing),
        loose,
    })
}

/// The load of the cabin.
fn cabin_of(a: &Aircraft, f: &Figures) -> Result<Load, TrimFault>
    requires { KeepsLimits f.now }
    ensures load { IfOk result (λ load. load ≡ load_of a.now.averages a.now.zones f.now.cabin) }
    ensures light { IfOk result (λ load. load.mass.0 ≤ 1000000000) }
    ensures near { IfOk result (λ load. unsigned_abs load.index.0 ≤ 100000000000000) }
    ensures right { IfOk result (λ _. HasCabin a.now f.now) }
    ensures refused { IfErr result (λ fault. (pay : PayFault) × (fault ≡ TrimFault.Pay pay)
        × IsFirstFault a.now.zones f.now.cabin pay) }
{
    match cabin_load(&f.cabin, a.zones(), a.averages()) {
        Ok(load) => Ok(load),
        Err(fault) => Err(TrimFault::Pay(fault)),
    }
}

/// The sum of two indices.
fn sum(one: Ticks, other: Ticks) -> Ticks
    requires one { unsigned_abs one.0 ≤ 1000000000000000 }
    requires other { unsigned_abs other.0 ≤ 1000000000000000 }
    ensures { result.0 ≡ one.0 +ℤ other.0 }
{
    Ticks(one.0 + other.0)
}

/// What the masses are computed from, with this traffic load.
fn input_of(f: &Figures, traffic: Kg) -> MassInput
    ensures { result ≡ record {
      dry = f.now.dry.mass;
      traffic = traffic;
      taxi = f.now.fuel.taxi;
      take_off_fuel = f.now.fuel.take_off;
      trip = f.now.fuel.trip;
      regulated_take_off = f.now.regulated.take_off;
      regulated_landing = f.now.regulated.landing;
    } }
{
    MassInput {
        dry: f.dry.mass,
        traffic,
        taxi: f.fuel.taxi,
        take_off_fuel: f.fuel.take_off,
        trip: f.fuel.trip,
        regulated_take_off: f.regulated.take_off,
        regulated_landing: f.regulated.landing,
    }
}

/// The index of this mass of fuel, which is within 10,000 index units.
fn fuel_index(a: &Aircraft, fuel: Kg) -> Result<Ticks, TrimFault>
    ensures index { IfOk result (λ added. IsFuelIndex a.now.fuel fuel.0 added.0) }
    ensures bounded { IfOk result (λ added. unsigned_abs added.0 ≤ 1000000000) }
    ensures there { IfOk result (λ added. ¬ (IsOutside a.now.fuel fuel.0)) }
    ensures out { IfErr result (λ fault. (fault ≡ TrimFault.FuelOut fuel) × IsOutside a.now.fuel fuel.0) }
{
    match a.fuel().index(fuel) {
        Some(added) => Ok(added),
        None => Err(TrimFault::FuelOut(fuel)),
    }
}

fn mass_of_containers(items: &[Item]) -> u32
    requires { container_mass items.now < 2 ^ 32 }
    ensures { result ≡ container_mass items.now }
{
    items.iter().map(|item| item.mass.0).sum()
}

fn mass_of_loose(loads: &[Loose]) -> u32
    requires { loose_mass loads.now < 2 ^ 32 }
    ensures { result ≡ loose_mass loads.now }
{
    loads.iter().map(|load| load.mass.0).sum()
}
