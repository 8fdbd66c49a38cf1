//! The reader of a row's text.

ghost use Rattle.std.specs.Prelude.{◌≡◌, ◌≤◌, ◌⊎◌, ℕ, List, Some, length, option_to_list, IfOk, IfErr, MatchResult};
ghost use Rattle.text_lines.specs.Grammar.{Fails};
ghost use Rattle.text_lines.specs.Lines.{text_of, IsStopped};
ghost use Rattle.text_lines.specs.Sections.{ArePart, IsOfKind};
ghost use Rattle.text_lines.specs.declared.fault.LineFault.{LineFault};
ghost use Rattle.trim.specs.declared.figures.Figures.{Figures};
ghost use Rattle.flight_row.specs.declared.row.Version.{Version};
ghost use Rattle.flight_row.specs.Reading.{KnowsVersion, KnowsHead, KnowsFigures, AreFromLeg, AreFromDry, AreFromPlan, leg_part, dry_part, plan_part, HasRead, IsSpelledHead, SaysReleases, IsPlanFor, NeedsPlan, most_plans, row_with};
ghost use Rattle.flight_row.specs.RowText.{releases_line, plan_line, row_text};
ghost use Rattle.flight_row.specs.Spelled.{AreToldReleases, IsSpelledPlan, AreSpelledFigures, Spells};
ghost use Rattle.aircraft_file.specs.Craft.{Craft};
ghost use Rattle.flight_state.specs.declared.state.FlightState.{FlightState};
ghost use Rattle.flight_row.specs.declared.row.Version.TheVariants.{Two};
ghost use Rattle.flight_row.specs.Loading.{HasRow, KeepsPlan, Reads, aircraft_of, row_of};
ghost use Rattle.flight_row.specs.Refusals.{AreRow, IsRefused};

use crate::changes::read_changes;
use crate::fault::RowFault;
use crate::fleet::aircraft_of;
use crate::kinds::{
    ContainerLines, DryLine, EditionLine, FuelLine, LegLine, LimitsLine, LoadLines, PlanLine,
    ReleasesLine, StageLine, VersionLine, ZoneLines,
};
use crate::loading::loaded;
use crate::row::{PlanNames, Row, Version};
use crate::single_lines::first_releases;
use aircraft_file::Aircraft;
use base_words::NoMemory;
use flight_state::{FlightState, Leg, Lmcs, Stage};
use payload::Cabin;
use std::alloc::Global;
use text_lines::{LineFault, Lines, expect_last, next_said, read_up_to};
use trim::{Figures, Items, LooseList};

/// The most zones, containers and loose loads of a flight.
const MOST_ZONES: usize = 16;

const MOST_LOADS: usize = 64;

/// Reads the flight that a row stands for, with the aircraft of a fleet. Both versions of a row are read.
///
/// A plan that no longer holds is dropped, and the flight is as that leaves it. Its row in the second version, which
/// `write_row` writes, is read back as the same flight. A text that is no row is refused with the
/// number of its first wrong line, or for its early end; a row whose aircraft the fleet does not have is refused for that.
pub fn read_row(alloc: Global, fleet: &[Aircraft], text: &[u8]) -> Result<FlightState, RowFault>
    ensures read { IfOk result (Reads fleet.now text.now) }
    ensures refused { IfErr result (IsRefused fleet.now text.now) }
    ensures complete { (s : FlightState) → Reads fleet.now text.now s
        → MatchResult result (λ got. got ≡ s) (λ fault. fault ≡ RowFault.NoMemory) }
    ensures kept { IfOk result (λ s. (a : Craft) → aircraft_of fleet.now s.leg ≡ Some a → HasRow a s × KeepsPlan a s) }
    ensures renewed { IfOk result (λ s. (a : Craft) → aircraft_of fleet.now s.leg ≡ Some a
        → Reads fleet.now (row_text Two (row_of a s)) s) }
{
    let row = read_lines(alloc, text)?;
    let Some(a) = aircraft_of(fleet, &row.leg) else {
        return Err(RowFault::NoAircraft);
    };
    Ok(loaded(alloc, a, row)?)
}

/// What the first lines of a row say.
#[derive(Drop)]
struct Head {
    leg: Leg,
    edition: u32,
    stage: Stage,
    releases: u32,
}

/// The row that the lines of the text state.
fn read_lines(alloc: Global, text: &[u8]) -> Result<Row, LineFault>
    ensures read { IfOk result (λ row. (version : Version) × Spells version text.now row) }
    ensures refused { IfErr result (Fails AreRow text.now 1) }
{
    let mut lines = Lines::new(text);
    let version = next_said(alloc, &VersionLine, &mut lines)?;
    let head = read_head(alloc, version, &mut lines)?;
    let base = read_figures(alloc, &mut lines)?;
    let (plan, lmcs) = read_rest(alloc, &head, &base, &mut lines)?;
    Ok(Row {
        leg: head.leg,
        edition: head.edition,
        stage: head.stage,
        releases: head.releases,
        base,
        plan,
        lmcs,
    })
}

/// The leg, the edition, the stage, and the number of releases.
fn read_head(alloc: Global, version: Version, lines: &mut Lines<'_>) -> Result<Head, LineFault>
    ensures spelled { IfOk result (IsSpelledHead version) }
    ensures read { IfOk result (λ head. HasRead (KnowsVersion version) (KnowsHead version head) leg_part dry_part
        lines.old.rest.now lines.new.rest.now lines.old.number lines.new.number) }
    ensures refused { IfErr result (Fails (AreFromLeg version) lines.old.rest.now lines.old.number) }
{
    let leg = next_said(alloc, &LegLine, lines)?;
    let edition = next_said(alloc, &EditionLine, lines)?;
    let stage = next_said(alloc, &StageLine, lines)?;
    let releases = next_releases(alloc, version, stage, lines)?;
    Ok(Head {
        leg,
        edition,
        stage,
        releases,
    })
}

/// The number of releases, for which a row of the first version has no line.
fn next_releases(
    alloc: Global,
    version: Version,
    stage: Stage,
    lines: &mut Lines<'_>,
) -> Result<u32, LineFault>
    ensures read { IfOk result (SaysReleases version stage
        lines.old.rest.now lines.new.rest.now lines.old.number lines.new.number) }
    ensures refused { IfErr result (λ fault. (fault ≡ LineFault.NoMemory)
        ⊎ ((version ≡ Two) × IsStopped lines.old.rest.now lines.old.number (IsOfKind releases_line (AreToldReleases stage)) fault)) }
{
    match version {
        Version::One => Ok(first_releases(stage)),
        Version::Two => next_said(alloc, &ReleasesLine(stage), lines),
    }
}

/// The figures before the late changes.
fn read_figures(alloc: Global, lines: &mut Lines<'_>) -> Result<Figures, LineFault>
    ensures spelled { IfOk result AreSpelledFigures }
    ensures read { IfOk result (λ base. (version : Version) (head : Head)
        → HasRead (KnowsHead version head) (KnowsFigures version head base) dry_part plan_part
        lines.old.rest.now lines.new.rest.now lines.old.number lines.new.number) }
    ensures refused { IfErr result (λ fault. (version : Version) (head : Head) → IsSpelledHead version head
        → Fails (AreFromDry version head) lines.old.rest.now lines.old.number fault) }
{
    let dry = next_said(alloc, &DryLine, lines)?;
    let fuel = next_said(alloc, &FuelLine, lines)?;
    let regulated = next_said(alloc, &LimitsLine, lines)?;
    let zones = read_up_to(alloc, MOST_ZONES, &ZoneLines, lines)?;
    let containers = read_up_to(alloc, MOST_LOADS, &ContainerLines, lines)?;
    let loose = read_up_to(alloc, MOST_LOADS, &LoadLines, lines)?;
    Ok(Figures {
        dry,
        fuel,
        regulated,
        cabin: Cabin::from(zones),
        containers: Items::from(containers),
        loose: LooseList::from(loose),
    })
}

/// The plan and the late changes, up to the end of the text.
fn read_rest(
    alloc: Global,
    head: &Head,
    base: &Figures,
    lines: &mut Lines<'_>,
) -> Result<(Option<PlanNames>, Lmcs), LineFault>
    ensures read { IfOk result (λ said. (version : Version) → IsSpelledHead version head.now → AreSpelledFigures base.now
        → KnowsFigures version head.now base.now (version, row_with head.now base.now said.0 said.1)
        × (lines.old.rest.now ≡ text_of (plan_part (version, row_with head.now base.now said.0 said.1)))) }
    ensures refused { IfErr result (λ fault. (version : Version) → IsSpelledHead version head.now → AreSpelledFigures base.now
        → Fails (AreFromPlan version head.now base.now) lines.old.rest.now lines.old.number fault) }
{
    let plan = read_plan_for(alloc, head.stage, lines)?;
    let lmcs = read_changes(alloc, base, head.stage, lines)?;
    expect_last(b"END", lines)?;
    Ok((plan, lmcs))
}

/// The plan that a flight at this stage has, or may have.
fn read_plan_for(
    alloc: Global,
    stage: Stage,
    lines: &mut Lines<'_>,
) -> Result<Option<PlanNames>, LineFault>
    ensures plan { IfOk result (IsPlanFor stage) }
    ensures read { IfOk result (λ plan. ArePart plan_line IsSpelledPlan (λ (plans : List (List (List ℕ))). length plans ≤ most_plans stage)
        lines.old.rest.now lines.new.rest.now lines.old.number lines.new.number (option_to_list plan)) }
    ensures refused { IfErr result (λ fault. (fault ≡ LineFault.NoMemory)
        ⊎ (NeedsPlan stage × IsStopped lines.old.rest.now lines.old.number (IsOfKind plan_line IsSpelledPlan) fault)) }
{
    match stage {
        Stage::Working => Ok(None),
        Stage::Planned | Stage::Released => Ok(Some(next_said(alloc, &PlanLine, lines)?)),
        Stage::Departed => {
            let mut plans = read_up_to(alloc, 1, &PlanLine, lines)?;
            Ok(plans.pop())
        }
    }
}
