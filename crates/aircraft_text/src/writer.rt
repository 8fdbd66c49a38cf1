//! The writer of an aircraft's text.

ghost use Rattle.std.specs.Prelude.{◌≡◌, ◌++◌, IfOk, OnOk};
ghost use Rattle.text_lines.specs.Lines.{text_of};
ghost use Rattle.aircraft_text.specs.AircraftText.{hold_lines, craft_text};

use crate::balance_lines::{FuelRows, push_envelopes, push_zones};
use crate::figure_lines::push_figures;
use crate::hold_lines::{push_hold_limits, push_lateral, push_positions};
use aircraft_file::Aircraft;
use base_words::NoMemory;
use hold_limits::Hold;
use std::alloc::Global;
use telex::Builder;
use text_lines::write_lines;

/// Appends the lines of the hold.
fn push_hold(out: &mut Builder, hold: &Hold) -> Result<(), NoMemory>
    ensures { OnOk result (out.new ≡ out.old ++ text_of (hold_lines hold.now)) }
{
    push_positions(out, hold.positions())?;
    push_hold_limits(out, hold)?;
    push_lateral(out, hold)
}

/// Writes the one text of the aircraft.
pub fn write_aircraft(alloc: Global, aircraft: &Aircraft) -> Result<Vec<u8>, NoMemory>
    ensures { IfOk result (λ text. text.items ≡ craft_text aircraft.now) }
{
    let mut out = Builder::new(alloc);
    push_figures(&mut out, aircraft)?;
    push_envelopes(&mut out, aircraft)?;
    write_lines(&FuelRows, aircraft.fuel().rows(), &mut out)?;
    push_zones(&mut out, aircraft.zones())?;
    push_hold(&mut out, aircraft.hold())?;
    Ok(out.finish())
}
