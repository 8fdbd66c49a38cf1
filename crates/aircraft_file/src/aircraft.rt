//! An aircraft, and the tests that the numbers of a file make up a lawful one.

ghost use Rattle.std.specs.Prelude.{◌≡◌, None, Some, IfErr, IfNone, IfOk, IfSome, MatchBool};
ghost use Rattle.hold_limits.specs.Faults.{IsWellSpelled, hold_fault};
ghost use Rattle.aircraft_file.specs.Loading.{under};
ghost use Rattle.aircraft_file.specs.Parts.{craft_in_parts, hold_in, outlines_in};
ghost use Rattle.aircraft_file.specs.Lawful.{AreEnvelopes, FallsShort, HaveSpans, IsEnvelopeRefused, IsFirstShort, IsLawfulCraft, IsRefused, IsWithinLimits, Reaches};

use crate::fault::FileFault;
use crate::figures::Figures;
use crate::parts::{AllSides, Envelopes, HoldParts, Limits, Parts};
use crate::texts::{Registration, Version};
use envelope::{EnvFault, Envelope};
use fuel_table::FuelTable;
use hold_limits::{Hold, HoldFault, Lateral};
use mass_limits::Certified;
use mass_units::{Chord, Kg, Ticks};
use payload::{Averages, Zone};
use std::marker::Model;

/// The numbers of an aircraft, as its operator's file states them. Its hold, its envelopes and its fuel
/// table are lawful, and each envelope goes up to the certified mass of its kind.
#[derive(Drop)]
pub struct Aircraft {
    figures: Figures,
    zones: Vec<Zone>,
    hold: Hold,
    fuel: FuelTable,
    envelopes: Envelopes,
}

impl Model for Aircraft {
    ghost use Rattle.aircraft_file.specs.Craft.{Craft, craft_with};
    ghost use Rattle.aircraft_file.specs.Lawful.{IsLawfulCraft};

    ghost Value = { Craft };

    ghost view = { λ a. craft_with a.figures a.zones.items a.hold a.fuel a.envelopes };

    ghost invariant = { λ a. IsLawfulCraft (craft_with a.figures a.zones.items a.hold a.fuel a.envelopes) };
}

impl Aircraft {
    /// The aircraft's registration.
    pub fn registration(&self) -> &Registration
        ensures value { result.now ≡ self.now.registration }
        ensures lawful { IsLawfulCraft self.now }
    {
        &self.figures.registration
    }

    /// The version of its cabin and hold.
    pub fn version(&self) -> &Version
        ensures value { result.now ≡ self.now.version }
        ensures lawful { IsLawfulCraft self.now }
    {
        &self.figures.version
    }

    /// The default of the dry operating mass.
    pub fn dry_mass(&self) -> Kg
        ensures value { result ≡ self.now.dry.mass }
        ensures lawful { IsLawfulCraft self.now }
    {
        self.figures.dry.mass
    }

    /// The default of the index of that mass.
    pub fn dry_index(&self) -> Ticks
        ensures value { result ≡ self.now.dry.index }
        ensures lawful { IsLawfulCraft self.now }
    {
        self.figures.dry.index
    }

    /// Where its index and its mean aerodynamic chord lie.
    pub fn chord(&self) -> &Chord
        ensures value { result.now ≡ self.now.chord }
        ensures lawful { IsLawfulCraft self.now }
    {
        &self.figures.chord
    }

    /// The greatest masses for which it is certified.
    pub fn certified(&self) -> &Certified
        ensures value { result.now ≡ self.now.certified }
        ensures lawful { IsLawfulCraft self.now }
    {
        &self.figures.certified
    }

    /// The most by which late changes may change the zero-fuel mass, up or down.
    pub fn tolerance_mass(&self) -> Kg
        ensures value { result ≡ self.now.tolerance.mass }
        ensures lawful { IsLawfulCraft self.now }
    {
        self.figures.tolerance.mass
    }

    /// The most by which late changes may change the zero-fuel index, up or down.
    pub fn tolerance_index(&self) -> Ticks
        ensures value { result ≡ self.now.tolerance.index }
        ensures lawful { IsLawfulCraft self.now }
    {
        self.figures.tolerance.index
    }

    /// The low end of the ideal band of the take-off index.
    pub fn ideal_low(&self) -> Ticks
        ensures value { result ≡ self.now.ideal.low }
        ensures lawful { IsLawfulCraft self.now }
    {
        self.figures.ideal.low
    }

    /// The high end of the ideal band of the take-off index.
    pub fn ideal_high(&self) -> Ticks
        ensures value { result ≡ self.now.ideal.high }
        ensures lawful { IsLawfulCraft self.now }
    {
        self.figures.ideal.high
    }

    /// The operator's average masses.
    pub fn averages(&self) -> &Averages
        ensures value { result.now ≡ self.now.averages }
        ensures lawful { IsLawfulCraft self.now }
    {
        &self.figures.averages
    }

    /// The zones of its cabin, from zone 1 on.
    pub fn zones(&self) -> &[Zone]
        ensures value { result.now ≡ self.now.zones }
        ensures lawful { IsLawfulCraft self.now }
    {
        &self.zones
    }

    /// Its hold.
    pub fn hold(&self) -> &Hold
        ensures value { result.now ≡ self.now.hold }
        ensures lawful { IsLawfulCraft self.now }
    {
        &self.hold
    }

    /// What fuel adds to its index.
    pub fn fuel(&self) -> &FuelTable
        ensures value { result.now ≡ self.now.fuel }
        ensures lawful { IsLawfulCraft self.now }
    {
        &self.fuel
    }

    /// The envelope of its zero-fuel mass.
    pub fn zero_fuel(&self) -> &Envelope
        ensures value { result.now ≡ self.now.zero_fuel }
        ensures lawful { IsLawfulCraft self.now }
    {
        &self.envelopes.zero_fuel
    }

    /// The envelope of its take-off mass.
    pub fn take_off(&self) -> &Envelope
        ensures value { result.now ≡ self.now.take_off }
        ensures lawful { IsLawfulCraft self.now }
    {
        &self.envelopes.take_off
    }

    /// The envelope of its landing mass.
    pub fn landing(&self) -> &Envelope
        ensures value { result.now ≡ self.now.landing }
        ensures lawful { IsLawfulCraft self.now }
    {
        &self.envelopes.landing
    }
}

/// The aircraft with these numbers, or the first fault of its hold, its envelopes, its fuel table or its
/// spans.
pub fn aircraft_of(parts: Parts) -> Result<Aircraft, FileFault>
    requires { IsWithinLimits (craft_in_parts parts) }
    ensures made { IfOk result (λ aircraft. aircraft ≡ craft_in_parts parts) }
    ensures lawful { IfOk result IsLawfulCraft }
    ensures refused { IfErr result (λ fault. IsRefused fault (craft_in_parts parts)) }
{
    let Parts {
        figures,
        zones,
        hold,
        fuel,
        sides,
        lateral,
    } = parts;
    let hold = hold_of(hold, lateral).map_err(FileFault::Hold)?;
    let envelopes = envelopes_of(sides).map_err(|(which, fault)| FileFault::Envelope(
        which, fault,
    ))?;
    let fuel = FuelTable::new(fuel).map_err(FileFault::Fuel)?;
    if let Some(which) = first_short(&figures.certified, &envelopes) {
        return Err(FileFault::Span(which));
    }
    Ok(Aircraft {
        figures,
        zones,
        hold,
        fuel,
        envelopes,
    })
}

/// The hold with these parts, under the lateral limit where there is one, or its first fault.
#[tactic(auto, using(crate::proofs::HoldLemmas::hold_refused))]
fn hold_of(parts: HoldParts, lateral: Option<Lateral>) -> Result<Hold, HoldFault>
    requires { IsWellSpelled (under lateral (hold_in parts)) }
    ensures made { IfOk result (λ hold. hold ≡ under lateral (hold_in parts)) }
    ensures lawful { IfOk result (λ hold. hold_fault hold ≡ None) }
    ensures refused { IfErr result (λ fault.
        hold_fault (under lateral (hold_in parts)) ≡ Some fault) }
{
    let HoldParts { positions, limits } = parts;
    let Limits {
        excludes,
        combined,
        cumulative,
    } = limits;
    let hold = Hold::new(positions, excludes, combined, cumulative)?;
    match lateral {
        Some(lateral) => hold.with_lateral(lateral),
        None => Ok(hold),
    }
}

/// The envelopes with these sides, or the number of the first that is not one, with its fault.
fn envelopes_of(sides: AllSides) -> Result<Envelopes, (usize, EnvFault)>
    ensures made { IfOk result (λ envelopes. envelopes ≡ outlines_in sides) }
    ensures lawful { IfOk result AreEnvelopes }
    ensures refused { IfErr result (λ fault.
        IsEnvelopeRefused fault.0 fault.1 (outlines_in sides)) }
{
    let AllSides {
        zero_fuel,
        take_off,
        landing,
    } = sides;
    Ok(Envelopes {
        zero_fuel: Envelope::new(zero_fuel.forward, zero_fuel.aft).map_err(|fault| (1, fault))?,
        take_off: Envelope::new(take_off.forward, take_off.aft).map_err(|fault| (2, fault))?,
        landing: Envelope::new(landing.forward, landing.aft).map_err(|fault| (3, fault))?,
    })
}

/// The number of the first envelope whose last mass is below the certified mass of its kind.
fn first_short(certified: &Certified, envelopes: &Envelopes) -> Option<usize>
    requires { AreEnvelopes envelopes.now }
    ensures short { IfSome result (λ which. IsFirstShort which certified.now envelopes.now) }
    ensures none { IfNone result (HaveSpans certified.now envelopes.now) }
{
    if !reaches(&envelopes.zero_fuel, certified.zero_fuel) {
        return Some(1);
    }
    if !reaches(&envelopes.take_off, certified.take_off) {
        return Some(2);
    }
    if !reaches(&envelopes.landing, certified.landing) {
        return Some(3);
    }
    None
}

/// Whether the envelope goes up to the mass.
fn reaches(envelope: &Envelope, mass: Kg) -> bool
    ensures { MatchBool result (Reaches mass envelope.now) (FallsShort mass envelope.now) }
{
    envelope
        .forward()
        .last()
        .is_some_and(|corner| mass.0 <= corner.mass.0)
}
