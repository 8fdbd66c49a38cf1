//! The kinds of lines of a row.

use crate::row::{PlanNames, Version};
use crate::section_lines::{read_change, read_container, read_load, read_zone};
use crate::single_lines::{
    read_dry, read_edition, read_fuel, read_leg, read_limits, read_plan, read_releases, read_stage,
    read_version,
};
use base_words::NoMemory;
use flight_state::{Leg, Lmc, Stage};
use hold_limits::Item;
use payload::ZoneCount;
use std::alloc::Global;
use text_lines::LineReader;
use trim::{Dry, Fuel, LooseFigure, Regulated};

/// `FLIGHT 1` or `FLIGHT 2`.
#[derive(Clone, Copy)]
pub struct VersionLine;

/// `leg FLIGHT DAY REGISTRATION ORIGIN DESTINATION`.
#[derive(Clone, Copy)]
pub struct LegLine;

/// `edition NUMBER`.
#[derive(Clone, Copy)]
pub struct EditionLine;

/// `stage STAGE`.
#[derive(Clone, Copy)]
pub struct StageLine;

/// `releases NUMBER`, in the row of a flight at this stage.
#[derive(Clone, Copy)]
pub struct ReleasesLine(pub Stage);

/// `dry MASS INDEX COCKPIT ATTENDANTS`.
#[derive(Clone, Copy)]
pub struct DryLine;

/// `fuel TAXI TAKEOFF TRIP`.
#[derive(Clone, Copy)]
pub struct FuelLine;

/// `limits TAKEOFF LANDING`.
#[derive(Clone, Copy)]
pub struct LimitsLine;

/// `zone ADULTS CHILDREN INFANTS`.
#[derive(Clone, Copy)]
pub struct ZoneLines;

/// `container ID MASS`.
#[derive(Clone, Copy)]
pub struct ContainerLines;

/// `loose NAME MASS PIECES`.
#[derive(Clone, Copy)]
pub struct LoadLines;

/// `plan NAME ..`.
#[derive(Clone, Copy)]
pub struct PlanLine;

/// `lmc zone ZONE ADULTS CHILDREN INFANTS` or `lmc bulk NAME MASS PIECES`.
#[derive(Clone, Copy)]
pub struct ChangeLines;

impl LineReader for VersionLine {
    ghost use Rattle.flight_row.specs.declared.row.Version.{Version};
    ghost use Rattle.flight_row.specs.RowText.{version_line};

    type Entry = Version;

    ghost text = { λ _. version_line };

    ghost spelled = { λ _ (_ : Version). Unit {0} };

    ghost keep = { λ _ x. x };

    fn read(&self, _alloc: Global, line: &[u8]) -> Result<Option<Version>, NoMemory> {
        Ok(read_version(line))
    }
}

impl LineReader for LegLine {
    ghost use Rattle.flight_row.specs.RowText.{leg_line};
    ghost use Rattle.flight_state.specs.Legs.{IsSpelledLeg};

    type Entry = Leg;

    ghost text = { λ _. leg_line };

    ghost spelled = { λ _. IsSpelledLeg };

    ghost keep = { λ _ x. x };

    fn read(&self, _alloc: Global, line: &[u8]) -> Result<Option<Leg>, NoMemory> {
        Ok(read_leg(line))
    }
}

impl LineReader for EditionLine {
    ghost use Rattle.flight_row.specs.RowText.{edition_line};
    ghost use Rattle.flight_row.specs.Spelled.{IsEdition};

    type Entry = u32;

    ghost text = { λ _. edition_line };

    ghost spelled = { λ _. IsEdition };

    ghost keep = { λ _ x. x };

    fn read(&self, _alloc: Global, line: &[u8]) -> Result<Option<u32>, NoMemory> {
        Ok(read_edition(line))
    }
}

impl LineReader for StageLine {
    ghost use Rattle.flight_state.specs.declared.state.Stage.{Stage};
    ghost use Rattle.flight_row.specs.RowText.{stage_line};

    type Entry = Stage;

    ghost text = { λ _. stage_line };

    ghost spelled = { λ _ (_ : Stage). Unit {0} };

    ghost keep = { λ _ x. x };

    fn read(&self, _alloc: Global, line: &[u8]) -> Result<Option<Stage>, NoMemory> {
        Ok(read_stage(line))
    }
}

impl LineReader for ReleasesLine {
    ghost use Rattle.flight_row.specs.RowText.{releases_line};
    ghost use Rattle.flight_row.specs.Spelled.{AreToldReleases};

    type Entry = u32;

    ghost text = { λ _. releases_line };

    ghost spelled = { λ r. AreToldReleases r.0 };

    ghost keep = { λ _ x. x };

    fn read(&self, _alloc: Global, line: &[u8]) -> Result<Option<u32>, NoMemory> {
        Ok(read_releases(self.0, line))
    }
}

impl LineReader for DryLine {
    ghost use Rattle.flight_row.specs.RowText.{dry_line};
    ghost use Rattle.flight_row.specs.Spelled.{IsSpelledDry};

    type Entry = Dry;

    ghost text = { λ _. dry_line };

    ghost spelled = { λ _. IsSpelledDry };

    ghost keep = { λ _ x. x };

    fn read(&self, _alloc: Global, line: &[u8]) -> Result<Option<Dry>, NoMemory> {
        Ok(read_dry(line))
    }
}

impl LineReader for FuelLine {
    ghost use Rattle.flight_row.specs.RowText.{fuel_line};
    ghost use Rattle.flight_row.specs.Spelled.{IsSpelledFuel};

    type Entry = Fuel;

    ghost text = { λ _. fuel_line };

    ghost spelled = { λ _. IsSpelledFuel };

    ghost keep = { λ _ x. x };

    fn read(&self, _alloc: Global, line: &[u8]) -> Result<Option<Fuel>, NoMemory> {
        Ok(read_fuel(line))
    }
}

impl LineReader for LimitsLine {
    ghost use Rattle.flight_row.specs.RowText.{limits_line};
    ghost use Rattle.flight_row.specs.Spelled.{AreSpelledLimits};

    type Entry = Regulated;

    ghost text = { λ _. limits_line };

    ghost spelled = { λ _. AreSpelledLimits };

    ghost keep = { λ _ x. x };

    fn read(&self, _alloc: Global, line: &[u8]) -> Result<Option<Regulated>, NoMemory> {
        Ok(read_limits(line))
    }
}

impl LineReader for ZoneLines {
    ghost use Rattle.flight_row.specs.RowText.{zone_line};
    ghost use Rattle.trim.specs.Limits.{HasFewPassengers};

    type Entry = ZoneCount;

    ghost text = { λ _. zone_line };

    ghost spelled = { λ _. HasFewPassengers };

    ghost keep = { λ _ x. x };

    fn read(&self, _alloc: Global, line: &[u8]) -> Result<Option<ZoneCount>, NoMemory> {
        Ok(read_zone(line))
    }
}

impl LineReader for ContainerLines {
    ghost use Rattle.flight_row.specs.RowText.{container_line};
    ghost use Rattle.flight_row.specs.Spelled.{IsSpelledContainer};

    type Entry = Item;

    ghost text = { λ _. container_line };

    ghost spelled = { λ _. IsSpelledContainer };

    ghost keep = { λ _ x. x };

    fn read(&self, _alloc: Global, line: &[u8]) -> Result<Option<Item>, NoMemory> {
        Ok(read_container(line))
    }
}

impl LineReader for LoadLines {
    ghost use Rattle.flight_row.specs.RowText.{loose_line};
    ghost use Rattle.flight_row.specs.Spelled.{IsSpelledLoad};

    type Entry = LooseFigure;

    ghost text = { λ _. loose_line };

    ghost spelled = { λ _. IsSpelledLoad };

    ghost keep = { λ _ x. x };

    fn read(&self, _alloc: Global, line: &[u8]) -> Result<Option<LooseFigure>, NoMemory> {
        Ok(read_load(line))
    }
}

impl LineReader for PlanLine {
    ghost use Rattle.flight_row.specs.RowText.{plan_line};
    ghost use Rattle.flight_row.specs.Spelled.{IsSpelledPlan};

    type Entry = PlanNames;

    ghost text = { λ _. plan_line };

    ghost spelled = { λ _. IsSpelledPlan };

    ghost keep = { λ _ x. x };

    fn read(&self, alloc: Global, line: &[u8]) -> Result<Option<PlanNames>, NoMemory> {
        read_plan(alloc, line)
    }
}

impl LineReader for ChangeLines {
    ghost use Rattle.flight_row.specs.RowText.{change_line};
    ghost use Rattle.flight_row.specs.Spelled.{IsSpelledChange};

    type Entry = Lmc;

    ghost text = { λ _. change_line };

    ghost spelled = { λ _. IsSpelledChange };

    ghost keep = { λ _ x. x };

    fn read(&self, _alloc: Global, line: &[u8]) -> Result<Option<Lmc>, NoMemory> {
        Ok(read_change(line))
    }
}
