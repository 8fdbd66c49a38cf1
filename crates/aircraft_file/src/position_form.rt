//! The form of a position of the hold.

ghost use Rattle.std.specs.Prelude.{◌≡◌, ◌≤◌, option_map, All, IfOk, IfSome};
ghost use Rattle.hold_parts.specs.Spellings.{IsKind};
ghost use Rattle.toml.specs.View.{view, table_view};
ghost use Rattle.aircraft_file.specs.Forms.{fit, fits_of, head_of, is_bulk, position_of};

use crate::forms::{Form, read_array};
use crate::section::Section;
use crate::values::{read_kind, read_mass, read_name, read_number, read_pair, read_signed};
use base_words::NoMemory;
use hold_limits::{Fit, Fits, Name, Position};
use std::alloc::Global;
use toml::{Table, Value};

/// A position except for what it accepts.
#[derive(Drop)]
struct Head {
    name: Name,
    compartment: u8,
    influence: i32,
    bulk: bool,
}

impl Head {
    /// The position that accepts these kinds.
    fn with_fits(self, fits: Vec<Fit>) -> Position
        ensures { result ≡ record {
          name = self.name;
          compartment = self.compartment;
          influence = self.influence;
          bulk = self.bulk;
          fits = fits.items;
        } }
    {
        Position {
            name: self.name,
            compartment: self.compartment,
            influence: self.influence,
            bulk: self.bulk,
            fits: Fits::from(fits),
        }
    }
}

/// The form of a position: a table with its name, its compartment, its influence, and either the kinds that
/// it accepts or `bulk = true`.
#[derive(Drop)]
pub struct PositionForm;

impl Form for PositionForm {
    ghost use Rattle.aircraft_file.specs.Forms.{position_of};
    ghost use Rattle.aircraft_file.specs.Lawful.{IsSpelledPosition};

    type Content = Position;

    ghost content = { λ form d. position_of d };

    ghost limits = { λ form read. IsSpelledPosition read };

    fn read(&self, alloc: Global, value: &Value) -> Result<Option<Position>, NoMemory> {
        let Some(table) = value.as_table() else {
            return Ok(None);
        };
        let Some(head) = read_head(table) else {
            return Ok(None);
        };
        let fits = Section::of(table).value("fits");
        let Some(fits) = read_fits(alloc, head.bulk, fits)? else {
            return Ok(None);
        };
        Ok(Some(head.with_fits(fits)))
    }
}

fn read_head(table: &Table) -> Option<Head>
    ensures value { result ≡ head_of (table_view table.now) }
    ensures limits { IfSome result (λ head. head.compartment ≤ 9) }
{
    let position = Section::of(table);
    Some(Head {
        name: read_name(position.value("name")?)?,
        compartment: read_number(position.value("compartment")?, 0, 9)? as u8,
        influence: read_signed(position.value("influence")?, 999_999_999)?,
        bulk: read_bulk(position.value("bulk"))?,
    })
}

/// Whether the position is bulk, by its key `bulk`.
fn read_bulk(bulk: Option<&Value>) -> Option<bool>
    ensures { result ≡ is_bulk (option_map (λ v. view v.now) bulk.entry) }
{
    match bulk {
        Some(value) => value.as_bool(),
        None => Some(false),
    }
}

/// What the position accepts, by its key `fits`, which must be absent where the position is bulk.
fn read_fits(alloc: Global, bulk: bool, fits: Option<&Value>) -> Result<Option<Vec<Fit>>, NoMemory>
    ensures value { IfOk result (λ read. option_map (λ list. list.items) read
        ≡ fits_of bulk (option_map (λ v. view v.now) fits.entry)) }
    ensures limits { IfOk result (λ read. IfSome read (λ list.
        All (λ fit. IsKind fit.kind) list.items)) }
{
    match (bulk, fits) {
        (true, None) => Ok(Some(Vec::new(alloc))),
        (false, Some(value)) => read_array(alloc, &FitForm, value),
        _ => Ok(None),
    }
}

/// The form `[kind, most]` of a kind with the greatest mass of one container.
#[derive(Drop)]
struct FitForm;

impl Form for FitForm {
    ghost use Rattle.aircraft_file.specs.Forms.{fit};
    ghost use Rattle.hold_parts.specs.Spellings.{IsKind};

    type Content = Fit;

    ghost content = { λ form d. fit d };

    ghost limits = { λ form read. IsKind read.kind };

    fn read(&self, _alloc: Global, value: &Value) -> Result<Option<Fit>, NoMemory> {
        Ok(read_fit(value))
    }
}

fn read_fit(value: &Value) -> Option<Fit>
    ensures value { result ≡ fit (view value.now) }
    ensures limits { IfSome result (λ fit. IsKind fit.kind) }
{
    let (kind, most) = read_pair(value)?;
    Some(Fit {
        kind: read_kind(kind)?,
        most: read_mass(most)?,
    })
}
