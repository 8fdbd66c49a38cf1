//! A hold of 64 positions and 48 containers, whose masses follow from a number.

ghost use Rattle.std.specs.Prelude.{◌≡◌, ◌+◌, ◌<◌, ◌∷◌, nat_lt, IfOk};
ghost use Rattle.mass_units.specs.Spelling.{two_digits};
ghost use Rattle.base_words.specs.Letters.{IsCapital};
ghost use Rattle.generated_load.specs.Load.{generated_name, generated_position, generated_positions, generated_hold, generated_id, generated_mass, generated_items, generated_problem};

use base_words::NoMemory;
use hold_limits::{Fit, Hold, Item, Name, Position, Task, UldId};
use mass_units::{Kg, Ticks};
use std::alloc::Global;

const POSITIONS: u8 = 64;

const FORE_POSITIONS: u8 = 28;

const CONTAINERS: u8 = 48;

fn is_fore(number: u8) -> bool
    ensures { result ≡ nat_lt number 28 }
{
    number < FORE_POSITIONS
}

fn digit(value: u8) -> u8
    requires { value < 10 }
    ensures { result ≡ 48 + value }
{
    b'0' + value
}

fn name_with(letter: u8, count: u8) -> Name
    requires letter { IsCapital letter }
    requires count { count < 100 }
    ensures { result ≡ letter ∷ two_digits count }
{
    match Name::read(&[letter, digit(count / 10), digit(count % 10)]) {
        Some(name) => name,
        None => unreachable!(),
    }
}

fn name_of(number: u8) -> Name
    requires { number < 64 }
    ensures { result ≡ generated_name number }
{
    if is_fore(number) {
        name_with(b'F', number + 1)
    } else {
        name_with(b'A', number - (FORE_POSITIONS - 1))
    }
}

fn position_of(alloc: Global, number: u8) -> Result<Position, NoMemory>
    requires { number < 64 }
    ensures { IfOk result (λ position. position ≡ generated_position number) }
{
    let fits = vec![in alloc;
        Fit {
            kind: *b"AKE",
            most: Kg(1600)
        },
    ]?;
    let fore = is_fore(number);
    Ok(Position {
        name: name_of(number),
        compartment: if fore { 1 } else { 4 },
        influence: if fore { -400 } else { 400 },
        bulk: false,
        fits: fits.into(),
    })
}

fn positions(alloc: Global) -> Result<Vec<Position>, NoMemory>
    ensures { IfOk result (λ positions. positions.items ≡ generated_positions) }
{
    let mut positions = Vec::new(alloc);
    for number in 0..POSITIONS {
        positions.push(position_of(alloc, number)?)?;
    }
    Ok(positions)
}

fn id_of(count: u8) -> UldId
    requires { count < 100 }
    ensures { result ≡ generated_id count }
{
    let text = [
        b'A',
        b'K',
        b'E',
        b'1',
        b'0',
        b'0',
        digit(count / 10),
        digit(count % 10),
        b'X',
        b'X',
    ];
    match UldId::read(&text) {
        Some(id) => id,
        None => unreachable!(),
    }
}

fn mass_of(number: u32, count: u8) -> Kg
    requires { count < 100 }
    ensures { result.0 ≡ generated_mass number count }
{
    let count = u32::from(count);
    Kg(600 + (count * count * (number % 997) + 37 * count) % 900)
}

fn items(alloc: Global, number: u32) -> Result<Vec<Item>, NoMemory>
    ensures { IfOk result (λ items. items.items ≡ generated_items number) }
{
    let mut items = Vec::new(alloc);
    for count in 1..=CONTAINERS {
        items.push(Item {
            id: id_of(count),
            mass: mass_of(number, count),
        })?;
    }
    Ok(items)
}

fn hold(alloc: Global) -> Result<Hold, NoMemory>
    ensures { IfOk result (λ hold. hold ≡ generated_hold) }
{
    let positions = positions(alloc)?;
    match Hold::new(positions, Vec::new(alloc), Vec::new(alloc), Vec::new(alloc)) {
        Ok(hold) => Ok(hold),
        Err(_) => unreachable!(),
    }
}

/// The load that is made from the number: 48 containers for 28 positions in the fore hold and 36 in
/// the aft one. It is a lawful task for every number.
pub fn generated_task(alloc: Global, number: u32) -> Result<Task, NoMemory>
    ensures { IfOk result (λ task. task ≡ generated_problem number) }
{
    let task = Task::new(
        hold(alloc)?,
        items(alloc, number)?,
        Vec::new(alloc),
        Ticks(5_000_000),
        Ticks(-100_000_000),
        Ticks(100_000_000),
        Ticks(4_400_000),
        Ticks(5_600_000),
    );
    match task {
        Ok(task) => Ok(task),
        Err(_) => unreachable!(),
    }
}
