//! Readers of the lines that a row has once.

ghost use Rattle.std.specs.Prelude.{◌≡◌, ◌≢◌, ℕ, List, IfOk, IfSome, IfNone};
ghost use Rattle.trim.specs.declared.figures.Dry.{Dry};
ghost use Rattle.trim.specs.declared.figures.Fuel.{Fuel};
ghost use Rattle.trim.specs.declared.figures.Regulated.{Regulated};
ghost use Rattle.flight_state.specs.Legs.{IsSpelledLeg};
ghost use Rattle.flight_state.specs.declared.leg.Leg.{Leg};
ghost use Rattle.flight_state.specs.declared.state.Stage.{Stage};
ghost use Rattle.flight_row.specs.declared.row.Version.{Version};
ghost use Rattle.flight_row.specs.RowText.{version_line, leg_line, edition_line, stage_line, releases_line, dry_line, fuel_line, limits_line, plan_line};
ghost use Rattle.flight_row.specs.Spelled.{IsEdition, AreToldReleases, first_releases, IsSpelledDry, IsSpelledFuel, AreSpelledLimits, IsSpelledPlan};

use crate::row::{PlanNames, Version};
use crate::words::Words;
use aircraft_file::Registration;
use base_words::NoMemory;
use flight_state::{Day, FlightName, Leg, Stage, Station};
use mass_units::Kg;
use std::alloc::Global;
use text_lines::{IndexWord, Last, NumberWord, Then, read_fields};
use trim::{Dry, Fuel, Regulated};

/// The greatest mass, in kilograms.
pub const MOST_MASS: u32 = 1_000_000;

/// The most of the crew in the cockpit, or in the cabin.
const MOST_CREW: u32 = 99;

/// The last edition, and the greatest number of releases.
const MOST_EDITIONS: u32 = 1_000_000_000;

/// The most names of a plan.
const MOST_NAMES: usize = 60;

/// The version of a row that has this first line.
pub fn read_version(line: &[u8]) -> Option<Version>
    ensures found { IfSome result (λ version. line.now ≡ version_line version) }
    ensures none { IfNone result ((version : Version) → line.now ≢ version_line version) }
{
    match line {
        b"FLIGHT 1" => Some(Version::One),
        b"FLIGHT 2" => Some(Version::Two),
        _ => None,
    }
}

/// The leg of a line `leg FLIGHT DAY REGISTRATION ORIGIN DESTINATION`.
pub fn read_leg(line: &[u8]) -> Option<Leg>
    ensures found { IfSome result (λ leg. IsSpelledLeg leg × (line.now ≡ leg_line leg)) }
    ensures none { IfNone result ((leg : Leg) → IsSpelledLeg leg → line.now ≢ leg_line leg) }
{
    let mut words = Words::of(line);
    words.keyword(b"leg")?;
    let flight = FlightName::read(words.next()?)?;
    let day = Day::read(words.next()?)?;
    let registration = Registration::read(words.next()?)?;
    let origin = Station::read(words.next()?)?;
    let destination = Station::read(words.next()?)?;
    words.end()?;
    Some(Leg {
        flight,
        day,
        registration,
        origin,
        destination,
    })
}

/// The edition of a line `edition NUMBER`.
pub fn read_edition(line: &[u8]) -> Option<u32>
    ensures found { IfSome result (λ edition. IsEdition edition × (line.now ≡ edition_line edition)) }
    ensures none { IfNone result ((edition : ℕ) → IsEdition edition → line.now ≢ edition_line edition) }
{
    let edition = NumberWord {
        least: 1,
        most: MOST_EDITIONS,
    };
    read_fields(b"edition ", &Last(edition), line)
}

/// The stage of a line `stage STAGE`.
pub fn read_stage(line: &[u8]) -> Option<Stage>
    ensures found { IfSome result (λ stage. line.now ≡ stage_line stage) }
    ensures none { IfNone result ((stage : Stage) → line.now ≢ stage_line stage) }
{
    match line {
        b"stage working" => Some(Stage::Working),
        b"stage planned" => Some(Stage::Planned),
        b"stage released" => Some(Stage::Released),
        b"stage departed" => Some(Stage::Departed),
        _ => None,
    }
}

/// The number of a line `releases NUMBER`, in the row of a flight at this stage.
pub fn read_releases(stage: Stage, line: &[u8]) -> Option<u32>
    ensures found { IfSome result (λ releases. AreToldReleases stage releases × (line.now ≡ releases_line releases)) }
    ensures none { IfNone result ((releases : ℕ) → AreToldReleases stage releases → line.now ≢ releases_line releases) }
{
    let releases = NumberWord {
        least: first_releases(stage),
        most: MOST_EDITIONS,
    };
    read_fields(b"releases ", &Last(releases), line)
}

/// How often a flight counts as released whose row does not say it: this often at least if it does.
pub fn first_releases(stage: Stage) -> u32
    ensures { result ≡ first_releases stage }
{
    match stage {
        Stage::Working | Stage::Planned => 0,
        Stage::Released | Stage::Departed => 1,
    }
}

/// The dry aircraft of a line `dry MASS INDEX COCKPIT ATTENDANTS`.
pub fn read_dry(line: &[u8]) -> Option<Dry>
    ensures found { IfSome result (λ dry. IsSpelledDry dry × (line.now ≡ dry_line dry)) }
    ensures none { IfNone result ((dry : Dry) → IsSpelledDry dry → line.now ≢ dry_line dry) }
{
    let mass = NumberWord {
        least: 1,
        most: MOST_MASS,
    };
    let crew = NumberWord {
        least: 0,
        most: MOST_CREW,
    };
    let fields = Then(mass, Then(IndexWord, Then(crew, Last(crew))));
    let (mass, (index, (cockpit, attendants))) = read_fields(b"dry ", &fields, line)?;
    Some(Dry {
        mass: Kg(mass),
        index,
        cockpit: cockpit as u8,
        attendants: attendants as u8,
    })
}

/// The fuel of a line `fuel TAXI TAKEOFF TRIP`.
pub fn read_fuel(line: &[u8]) -> Option<Fuel>
    ensures found { IfSome result (λ fuel. IsSpelledFuel fuel × (line.now ≡ fuel_line fuel)) }
    ensures none { IfNone result ((fuel : Fuel) → IsSpelledFuel fuel → line.now ≢ fuel_line fuel) }
{
    let mass = NumberWord {
        least: 0,
        most: MOST_MASS,
    };
    let fields = Then(mass, Then(mass, Last(mass)));
    let (taxi, (take_off, trip)) = read_fields(b"fuel ", &fields, line)?;
    if trip > take_off {
        return None;
    }
    Some(Fuel {
        taxi: Kg(taxi),
        take_off: Kg(take_off),
        trip: Kg(trip),
    })
}

/// The regulated masses of a line `limits TAKEOFF LANDING`.
pub fn read_limits(line: &[u8]) -> Option<Regulated>
    ensures found { IfSome result (λ limits. AreSpelledLimits limits × (line.now ≡ limits_line limits)) }
    ensures none { IfNone result ((limits : Regulated) → AreSpelledLimits limits → line.now ≢ limits_line limits) }
{
    let mass = NumberWord {
        least: 0,
        most: MOST_MASS,
    };
    let (take_off, landing) = read_fields(b"limits ", &Then(mass, Last(mass)), line)?;
    Some(Regulated {
        take_off: Kg(take_off),
        landing: Kg(landing),
    })
}

/// The names of a line `plan NAME ..`.
pub fn read_plan(alloc: Global, line: &[u8]) -> Result<Option<PlanNames>, NoMemory>
    ensures found { IfOk result (λ r. IfSome r (λ names. IsSpelledPlan names × (line.now ≡ plan_line names))) }
    ensures none { IfOk result (λ r. IfNone r ((names : List (List ℕ)) → IsSpelledPlan names → line.now ≢ plan_line names)) }
{
    let mut words = Words::of(line);
    if words.keyword(b"plan").is_none() {
        return Ok(None);
    }
    let mut names = Vec::new(alloc);
    while !words.is_done() {
        let Some(name) = words.name() else {
            return Ok(None);
        };
        if names.len() >= MOST_NAMES {
            return Ok(None);
        }
        names.push(name)?;
    }
    Ok(Some(PlanNames::from(names)))
}
