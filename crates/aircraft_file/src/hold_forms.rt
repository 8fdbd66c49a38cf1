//! The forms of the limits on the positions of a hold. They name positions, and a name means the first
//! position that has it.

ghost use Rattle.std.specs.Prelude.{◌≡◌, IfSome};
ghost use Rattle.toml.specs.View.{view};
ghost use Rattle.aircraft_file.specs.Forms.{combined, cumulative, exclude, named_position, named_side};
ghost use Rattle.aircraft_file.specs.Lawful.{IsMass};

use crate::forms::{Form, read_each};
use crate::side_keys::NamedSide;
use crate::values::{read_first_and_more, read_mass, read_pair};
use base_words::NoMemory;
use hold_limits::{Combined, Cumulative, Places};
use hold_parts::PositionNames;
use std::alloc::Global;
use toml::Value;

/// The number of the named position. A number over 255 is read as 255: a hold with so many positions is
/// refused for having too many, whatever its limits say.
fn read_position_number(names: &PositionNames<'_>, value: &Value) -> Option<u8>
    ensures { result ≡ named_position names.now.positions.now (view value.now) }
{
    let number = names.number_of(value.as_str()?.as_bytes())?;
    Some(number.min(255) as u8)
}

/// The form of a position's name.
#[derive(Drop)]
struct NameForm<'a, 'b> {
    names: &'a PositionNames<'b>,
}

impl<'a, 'b> Form for NameForm<'a, 'b> {
    ghost use Rattle.aircraft_file.specs.Forms.{named_position};

    type Content = u8;

    ghost content = { λ form d. named_position form.names.now.positions.now d };

    ghost limits = { λ form read. Unit {0} };

    fn read(&self, _alloc: Global, value: &Value) -> Result<Option<u8>, NoMemory> {
        Ok(read_position_number(self.names, value))
    }
}

/// The form of a position's name in the array of the left or of the right side.
#[derive(Drop)]
pub struct SideForm<'a, 'b> {
    pub right: bool,
    pub names: &'a PositionNames<'b>,
}

impl<'a, 'b> Form for SideForm<'a, 'b> {
    ghost use Rattle.aircraft_file.specs.Forms.{named_side};

    type Content = NamedSide;

    ghost content = { λ form d. named_side form.right form.names.now.positions.now d };

    ghost limits = { λ form read. Unit {0} };

    fn read(&self, _alloc: Global, value: &Value) -> Result<Option<NamedSide>, NoMemory> {
        Ok(read_named_side(self.right, self.names, value))
    }
}

fn read_named_side(right: bool, names: &PositionNames<'_>, value: &Value) -> Option<NamedSide>
    ensures { result ≡ named_side right names.now.positions.now (view value.now) }
{
    let number = names.number_of(value.as_str()?.as_bytes())?;
    Some(NamedSide { number, right })
}

/// The form `[name, name]` of an excluding pair.
#[derive(Drop)]
pub struct ExcludeForm<'a, 'b> {
    pub names: &'a PositionNames<'b>,
}

impl<'a, 'b> Form for ExcludeForm<'a, 'b> {
    ghost use Rattle.aircraft_file.specs.Forms.{exclude};

    type Content = (u8, u8);

    ghost content = { λ form d. exclude form.names.now.positions.now d };

    ghost limits = { λ form read. Unit {0} };

    fn read(&self, _alloc: Global, value: &Value) -> Result<Option<(u8, u8)>, NoMemory> {
        Ok(read_exclude(self.names, value))
    }
}

fn read_exclude(names: &PositionNames<'_>, value: &Value) -> Option<(u8, u8)>
    ensures { result ≡ exclude names.now.positions.now (view value.now) }
{
    let (one, other) = read_pair(value)?;
    Some((
        read_position_number(names, one)?,
        read_position_number(names, other)?,
    ))
}

/// The form `[most, name, ..]` of a combined limit.
#[derive(Drop)]
pub struct CombinedForm<'a, 'b> {
    pub names: &'a PositionNames<'b>,
}

impl<'a, 'b> Form for CombinedForm<'a, 'b> {
    ghost use Rattle.aircraft_file.specs.Forms.{combined};
    ghost use Rattle.aircraft_file.specs.Lawful.{IsMass};

    type Content = Combined;

    ghost content = { λ form d. combined form.names.now.positions.now d };

    ghost limits = { λ form read. IsMass 0 1000000 read.most };

    fn read(&self, alloc: Global, value: &Value) -> Result<Option<Combined>, NoMemory> {
        let Some((most, names)) = read_first_and_more(value) else {
            return Ok(None);
        };
        let Some(most) = read_mass(most) else {
            return Ok(None);
        };
        let form = NameForm { names: self.names };
        let Some(places) = read_each(alloc, &form, names)? else {
            return Ok(None);
        };
        Ok(Some(Combined {
            places: Places::from(places),
            most,
        }))
    }
}

/// The form `[name, most]` of a cumulative limit of this side.
#[derive(Drop)]
pub struct CumulativeForm<'a, 'b> {
    pub forward: bool,
    pub names: &'a PositionNames<'b>,
}

impl<'a, 'b> Form for CumulativeForm<'a, 'b> {
    ghost use Rattle.aircraft_file.specs.Forms.{cumulative};
    ghost use Rattle.aircraft_file.specs.Lawful.{IsMass};

    type Content = Cumulative;

    ghost content = { λ form d. cumulative form.forward form.names.now.positions.now d };

    ghost limits = { λ form read. IsMass 0 1000000 read.most };

    fn read(&self, _alloc: Global, value: &Value) -> Result<Option<Cumulative>, NoMemory> {
        Ok(read_cumulative(self.forward, self.names, value))
    }
}

fn read_cumulative(forward: bool, names: &PositionNames<'_>, value: &Value) -> Option<Cumulative>
    ensures value { result ≡ cumulative forward names.now.positions.now (view value.now) }
    ensures limits { IfSome result (λ limit. IsMass 0 1000000 limit.most) }
{
    let (name, most) = read_pair(value)?;
    Some(Cumulative {
        forward,
        place: read_position_number(names, name)?,
        most: read_mass(most)?,
    })
}
