//! The keys 22 to 34, zones, hold, fuel table and envelopes, and then all keys of a file.

ghost use Rattle.std.specs.Prelude.{◌≡◌, ◌≤◌, ◌++◌, All, IfOk};
ghost use Rattle.hold_limits.specs.Faults.{IsWellSpelled};
ghost use Rattle.aircraft_file.specs.Lawful.{AreCombined, AreCorners, AreCumulative, AreZones, IsFuelRow, IsWithinLimits};
ghost use Rattle.aircraft_file.specs.Document.{Answers};
ghost use Rattle.aircraft_file.specs.Loading.{fuel_of, hold_of, limits_of, outline_of, zones_of};
ghost use Rattle.aircraft_file.specs.Craft.{craft_in, envelopes_of};
ghost use Rattle.aircraft_file.specs.Parts.{craft_in_parts, hold_in, limits_in, outline_in, outlines_in};
ghost use Rattle.aircraft_file.specs.Sections.{contents};

use crate::balance_forms::{CornerForm, FuelRowForm, ZoneForm};
use crate::fault::FileFault;
use crate::figure_keys::read_figures;
use crate::hold_forms::{CombinedForm, CumulativeForm, ExcludeForm};
use crate::parts::{AllSides, HoldParts, Limits, Parts, Sides};
use crate::position_form::PositionForm;
use crate::section::Section;
use crate::side_keys::read_lateral;
use base_words::NoMemory;
use fuel_table::FuelRow;
use hold_limits::Cumulative;
use hold_parts::PositionNames;
use payload::Zone;
use std::alloc::Global;

/// The most zones of a cabin.
const MOST_ZONES: usize = 16;

fn read_zones(alloc: Global, document: &Section<'_>) -> Result<Vec<Zone>, FileFault>
    ensures value { Answers (λ zones. zones.items) result (zones_of (contents document.now)) }
    ensures limits { IfOk result (λ zones. AreZones zones.items) }
{
    let zones = document.array(alloc, 22, "zone", &ZoneForm)?;
    if zones.is_empty() || zones.len() > MOST_ZONES {
        return Err(FileFault::Wrong(22));
    }
    Ok(zones)
}

fn read_hold(alloc: Global, document: &Section<'_>) -> Result<HoldParts, FileFault>
    ensures value { Answers hold_in result (hold_of (contents document.now)) }
    ensures limits { IfOk result (λ hold. IsWellSpelled (hold_in hold)) }
{
    let positions = document.array(alloc, 23, "position", &PositionForm)?;
    let hold = document.section("hold");
    let limits = read_limits(alloc, &PositionNames::new(alloc, &positions)?, &hold)?;
    Ok(HoldParts { positions, limits })
}

fn read_limits(
    alloc: Global,
    names: &PositionNames<'_>,
    hold: &Section<'_>,
) -> Result<Limits, FileFault>
    ensures value { Answers limits_in result (limits_of names.now.positions.now (contents hold.now)) }
    ensures combined { IfOk result (λ limits. AreCombined limits.combined.items) }
    ensures cumulative { IfOk result (λ limits. AreCumulative limits.cumulative.items) }
{
    let excludes = hold.array_or_empty(alloc, 24, "exclude", &ExcludeForm { names })?;
    let combined = hold.array_or_empty(alloc, 25, "combined", &CombinedForm { names })?;
    let forward = CumulativeForm {
        forward: true,
        names,
    };
    let forward = hold.array_or_empty(alloc, 26, "forward", &forward)?;
    let aft = CumulativeForm {
        forward: false,
        names,
    };
    let aft = hold.array_or_empty(alloc, 27, "aft", &aft)?;
    Ok(Limits {
        excludes,
        combined,
        cumulative: joined(forward, &aft)?,
    })
}

/// The first limits, and then the second ones.
fn joined(first: Vec<Cumulative>, second: &[Cumulative]) -> Result<Vec<Cumulative>, NoMemory>
    requires first { AreCumulative first.items }
    requires second { AreCumulative second.now }
    ensures value { IfOk result (λ limits. limits.items ≡ first.items ++ second.now) }
    ensures limits { IfOk result (λ limits. AreCumulative limits.items) }
{
    let mut limits = first;
    limits.extend_from_slice(second)?;
    Ok(limits)
}

fn read_fuel(alloc: Global, fuel: &Section<'_>) -> Result<Vec<FuelRow>, FileFault>
    ensures value { Answers (λ rows. rows.items) result (fuel_of (contents fuel.now)) }
    ensures limits { IfOk result (λ rows. All IsFuelRow rows.items) }
{
    fuel.array(alloc, 28, "rows", &FuelRowForm)
}

/// The sides of an envelope. Their keys have this number and the next.
fn read_sides(alloc: Global, number: usize, sides: &Section<'_>) -> Result<Sides, FileFault>
    requires { number ≤ 33 }
    ensures value { Answers outline_in result (outline_of number (contents sides.now)) }
    ensures limits { IfOk result (λ sides. AreCorners (outline_in sides)) }
{
    let forward = sides.array(alloc, number, "forward", &CornerForm)?;
    let aft = sides.array(alloc, number + 1, "aft", &CornerForm)?;
    Ok(Sides { forward, aft })
}

fn read_all_sides(alloc: Global, envelope: &Section<'_>) -> Result<AllSides, FileFault>
    ensures value { Answers outlines_in result (envelopes_of (contents envelope.now)) }
    ensures zero_fuel { IfOk result (λ sides. AreCorners (outline_in sides.zero_fuel)) }
    ensures take_off { IfOk result (λ sides. AreCorners (outline_in sides.take_off)) }
    ensures landing { IfOk result (λ sides. AreCorners (outline_in sides.landing)) }
{
    Ok(AllSides {
        zero_fuel: read_sides(alloc, 29, &envelope.section("zero_fuel"))?,
        take_off: read_sides(alloc, 31, &envelope.section("take_off"))?,
        landing: read_sides(alloc, 33, &envelope.section("landing"))?,
    })
}

/// What all keys say, or the first of them that fails.
pub fn read_parts(alloc: Global, document: &Section<'_>) -> Result<Parts, FileFault>
    ensures value { Answers craft_in_parts result (craft_in (contents document.now)) }
    ensures limits { IfOk result (λ parts. IsWithinLimits (craft_in_parts parts)) }
{
    let figures = read_figures(document)?;
    let zones = read_zones(alloc, document)?;
    let hold = read_hold(alloc, document)?;
    let fuel = read_fuel(alloc, &document.section("fuel"))?;
    let sides = read_all_sides(alloc, &document.section("envelope"))?;
    let lateral = read_lateral(alloc, &hold.positions, &document.section("hold"))?;
    Ok(Parts {
        figures,
        zones,
        hold,
        fuel,
        sides,
        lateral,
    })
}
