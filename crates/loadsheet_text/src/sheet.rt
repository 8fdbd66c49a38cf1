//! The writer of a loadsheet.

ghost use Rattle.std.specs.Prelude.{◌≡◌, ◌+◌, ◌<◌, ◌^◌, ◌++◌, IfOk, OnOk, map};
ghost use Rattle.text_lines.specs.Lines.{text_of};
ghost use Rattle.loadsheet_text.specs.SheetText.{flight_lines, load_lines, mass_lines, balance_lines, change_line, sheet_text};

use crate::line_writers::{
    limit_mark, push_change, push_chord, push_indices, push_leg, push_limited, push_mass,
    push_number, push_passengers, push_underload,
};
use base_words::NoMemory;
use last_minute::{Lmc, Sheet};
use mass_limits::Limiting;
use mass_units::Kg;
use std::alloc::Global;
use telex::Builder;

/// Appends which flight it is, and who flies.
fn push_flight(out: &mut Builder, s: &Sheet) -> Result<(), NoMemory>
    ensures { OnOk result (out.new ≡ out.old ++ text_of (flight_lines s.now)) }
{
    out.text(b"LOADSHEET\n")?;
    push_leg(out, &s.leg)?;
    push_number(out, b"EDNO", u64::from(s.edition))?;
    push_passengers(out, s)
}

/// The kilograms in 64 bits, where the sum of three masses fits.
fn wide(mass: Kg) -> u64
    ensures value { result ≡ mass.0 }
    ensures bound { result < 2 ^ 32 }
{
    u64::from(mass.0)
}

/// The mass of all that the flight carries.
fn traffic_load(s: &Sheet) -> u64
    ensures { result ≡ s.now.cabin_mass.0 + s.now.container_mass.0 + s.now.loose_mass.0 }
{
    wide(s.cabin_mass) + wide(s.container_mass) + wide(s.loose_mass)
}

/// Appends what the flight carries.
fn push_load(out: &mut Builder, s: &Sheet) -> Result<(), NoMemory>
    ensures { OnOk result (out.new ≡ out.old ++ text_of (load_lines s.now)) }
{
    push_mass(out, b"CABIN", s.cabin_mass)?;
    push_mass(out, b"CONTAINERS", s.container_mass)?;
    push_mass(out, b"LOOSE", s.loose_mass)?;
    push_number(out, b"TRAFFIC LOAD", traffic_load(s))
}

/// Appends the masses of the flight with their limits.
fn push_masses(out: &mut Builder, s: &Sheet) -> Result<(), NoMemory>
    ensures { OnOk result (out.new ≡ out.old ++ text_of (mass_lines s.now)) }
{
    let masses = &s.balance.masses;
    let limiting = s.balance.underload.limiting;
    push_mass(out, b"DRY OPERATING WEIGHT", s.dry.mass)?;
    push_limited(
        out,
        b"ZERO FUEL WEIGHT",
        masses.zero_fuel,
        s.max_zero_fuel,
        limit_mark(Limiting::ZeroFuel, limiting),
    )?;
    push_mass(out, b"TAKE OFF FUEL", s.fuel.take_off)?;
    push_limited(
        out,
        b"TAKE OFF WEIGHT",
        masses.take_off,
        s.regulated.take_off,
        limit_mark(Limiting::TakeOff, limiting),
    )?;
    push_mass(out, b"TRIP FUEL", s.fuel.trip)?;
    push_limited(
        out,
        b"LANDING WEIGHT",
        masses.landing,
        s.regulated.landing,
        limit_mark(Limiting::Landing, limiting),
    )
}

/// Appends the balance of the flight.
fn push_balance(out: &mut Builder, s: &Sheet) -> Result<(), NoMemory>
    ensures { OnOk result (out.new ≡ out.old ++ text_of (balance_lines s.now)) }
{
    let balance = &s.balance;
    push_underload(out, &balance.underload)?;
    push_indices(
        out,
        s.dry.index,
        balance.zero_fuel,
        balance.take_off,
        balance.landing,
    )?;
    push_chord(out, &s.mac)
}

/// Appends the late changes in their order.
fn push_changes(out: &mut Builder, changes: &[Lmc]) -> Result<(), NoMemory>
    ensures { OnOk result (out.new ≡ out.old ++ text_of (map change_line changes.now)) }
{
    for change in changes {
        push_change(out, change)?;
    }
    Ok(())
}

/// Writes the one text of the sheet.
pub fn write_sheet(alloc: Global, s: &Sheet) -> Result<Vec<u8>, NoMemory>
    ensures { IfOk result (λ text. text.items ≡ sheet_text s.now) }
{
    let mut out = Builder::new(alloc);
    push_flight(&mut out, s)?;
    push_load(&mut out, s)?;
    push_masses(&mut out, s)?;
    push_balance(&mut out, s)?;
    push_changes(&mut out, s.lmcs.as_slice())?;
    out.text(b"END\n")?;
    Ok(out.finish())
}
