//! The keys 35 to 37: the lateral limit of the hold, and which of its positions are on the left and on the
//! right.

ghost use Rattle.std.specs.Prelude.{◌≡◌, ◌==◌, ◌++◌, find, IfOk, IfSome};
ghost use Rattle.aircraft_file.specs.Document.{Answers};
ghost use Rattle.aircraft_file.specs.Lawful.{IsMass};
ghost use Rattle.aircraft_file.specs.Loading.{apart, in_order, lateral_of, same_number, sides_of};
ghost use Rattle.aircraft_file.specs.Sections.{contents};
ghost use Rattle.aircraft_file.specs.declared.side_keys.NamedSide.{NamedSide};

use crate::fault::FileFault;
use crate::hold_forms::SideForm;
use crate::section::Section;
use crate::values::read_mass;
use base_words::NoMemory;
use hold_limits::{Lateral, Position, Sides};
use hold_parts::{Alike, PositionNames, first_repeat};
use std::alloc::Global;

/// A position that one of the two arrays names, and whether it is the array of the right side.
#[derive(Clone, Copy)]
pub struct NamedSide {
    pub number: usize,
    pub right: bool,
}

impl Alike for NamedSide {
    ghost alike = { same_number };

    fn is_alike(&self, other: &NamedSide) -> bool {
        self.number == other.number
    }
}

/// The limit on the difference of the masses right and left, where the hold has one. The sides are read only
/// then.
pub fn read_lateral(
    alloc: Global,
    positions: &[Position],
    hold: &Section<'_>,
) -> Result<Option<Lateral>, FileFault>
    ensures value { Answers (λ lateral. lateral) result (lateral_of positions.now (contents hold.now)) }
    ensures limits { IfOk result (λ read. IfSome read (λ lateral. IsMass 0 1000000 lateral.most)) }
{
    let Some(most) = hold.value("lateral") else {
        return Ok(None);
    };
    let most = read_mass(most).ok_or(FileFault::Wrong(35))?;
    let sides = read_sides(alloc, &PositionNames::new(alloc, positions)?, hold)?;
    let sides = in_order(alloc, &sides, positions.len())?;
    Ok(Some(Lateral {
        most,
        sides: Sides::from(sides),
    }))
}

/// The positions on the left, and then those on the right.
fn read_sides(
    alloc: Global,
    names: &PositionNames<'_>,
    hold: &Section<'_>,
) -> Result<Vec<NamedSide>, FileFault>
    ensures { Answers (λ sides. sides.items) result (sides_of names.now.positions.now (contents hold.now)) }
{
    let left = SideForm {
        right: false,
        names,
    };
    let left = apart(36, hold.array_or_empty(alloc, 36, "left", &left)?)?;
    let right = SideForm { right: true, names };
    let right = hold.array_or_empty(alloc, 37, "right", &right)?;
    apart(37, joined(left, &right)?)
}

/// The sides where no two of them are of one position, or else that the key with this number is wrong.
fn apart(number: usize, sides: Vec<NamedSide>) -> Result<Vec<NamedSide>, FileFault>
    ensures { Answers (λ sides. sides.items) result (apart number sides.items) }
{
    if first_repeat(&sides).is_some() {
        return Err(FileFault::Wrong(number));
    }
    Ok(sides)
}

/// The first sides, and then the second ones.
fn joined(first: Vec<NamedSide>, second: &[NamedSide]) -> Result<Vec<NamedSide>, NoMemory>
    ensures { IfOk result (λ sides. sides.items ≡ first.items ++ second.now) }
{
    let mut sides = first;
    sides.extend_from_slice(second)?;
    Ok(sides)
}

/// The sides in the order of their positions, of which there are `count`. A number over 255 is kept as 255, as
/// in the limits.
#[tactic(auto, using(crate::proofs::SideLemmas::side_steps))]
fn in_order(alloc: Global, named: &[NamedSide], count: usize) -> Result<Vec<(u8, bool)>, NoMemory>
    ensures { IfOk result (λ sides. sides.items ≡ in_order named.now count) }
{
    let mut sides = Vec::new(alloc);
    for number in 0..count {
        if let Some(side) = side_of(named, number) {
            sides.push((side.number.min(255) as u8, side.right))?;
        }
    }
    Ok(sides)
}

/// The side of the position with this number, where it is named.
fn side_of(named: &[NamedSide], number: usize) -> Option<NamedSide>
    ensures { result ≡ find (λ (side : NamedSide). side.number == number) named.now }
{
    named.iter().copied().find(|side| side.number == number)
}
