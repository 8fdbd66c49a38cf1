//! The forms of corners of envelopes, of rows of the fuel table and of zones of the cabin.

ghost use Rattle.std.specs.Prelude.{◌≡◌, IfSome};
ghost use Rattle.toml.specs.View.{view};
ghost use Rattle.aircraft_file.specs.Forms.{corner, fuel_row, zone};
ghost use Rattle.aircraft_file.specs.Lawful.{IsCorner, IsFuelRow, IsZone};

use crate::forms::Form;
use crate::section::Section;
use crate::values::{read_index, read_mass, read_number, read_pair, read_signed};
use base_words::NoMemory;
use envelope::Corner;
use fuel_table::FuelRow;
use payload::Zone;
use std::alloc::Global;
use toml::Value;

/// The form `[mass, index]` of a corner.
#[derive(Drop)]
pub struct CornerForm;

impl Form for CornerForm {
    ghost use Rattle.aircraft_file.specs.Forms.{corner};
    ghost use Rattle.aircraft_file.specs.Lawful.{IsCorner};

    type Content = Corner;

    ghost content = { λ form d. corner d };

    ghost limits = { λ form read. IsCorner read };

    fn read(&self, _alloc: Global, value: &Value) -> Result<Option<Corner>, NoMemory> {
        Ok(read_corner(value))
    }
}

fn read_corner(value: &Value) -> Option<Corner>
    ensures value { result ≡ corner (view value.now) }
    ensures limits { IfSome result IsCorner }
{
    let (mass, index) = read_pair(value)?;
    Some(Corner {
        mass: read_mass(mass)?,
        index: read_index(index)?,
    })
}

/// The form `[mass, index]` of a row of the fuel table.
#[derive(Drop)]
pub struct FuelRowForm;

impl Form for FuelRowForm {
    ghost use Rattle.aircraft_file.specs.Forms.{fuel_row};
    ghost use Rattle.aircraft_file.specs.Lawful.{IsFuelRow};

    type Content = FuelRow;

    ghost content = { λ form d. fuel_row d };

    ghost limits = { λ form read. IsFuelRow read };

    fn read(&self, _alloc: Global, value: &Value) -> Result<Option<FuelRow>, NoMemory> {
        Ok(read_fuel_row(value))
    }
}

fn read_fuel_row(value: &Value) -> Option<FuelRow>
    ensures value { result ≡ fuel_row (view value.now) }
    ensures limits { IfSome result IsFuelRow }
{
    let (fuel, index) = read_pair(value)?;
    Some(FuelRow {
        fuel: read_mass(fuel)?,
        index: read_index(index)?,
    })
}

/// The form of a zone: a table with its seats and its influence.
#[derive(Drop)]
pub struct ZoneForm;

impl Form for ZoneForm {
    ghost use Rattle.aircraft_file.specs.Forms.{zone};
    ghost use Rattle.aircraft_file.specs.Lawful.{IsZone};

    type Content = Zone;

    ghost content = { λ form d. zone d };

    ghost limits = { λ form read. IsZone read };

    fn read(&self, _alloc: Global, value: &Value) -> Result<Option<Zone>, NoMemory> {
        Ok(read_zone(value))
    }
}

fn read_zone(value: &Value) -> Option<Zone>
    ensures value { result ≡ zone (view value.now) }
    ensures limits { IfSome result IsZone }
{
    let zone = Section::of(value.as_table()?);
    Some(Zone {
        capacity: read_number(zone.value("capacity")?, 0, 999)? as u16,
        influence: read_signed(zone.value("influence")?, 100_000)?,
    })
}
