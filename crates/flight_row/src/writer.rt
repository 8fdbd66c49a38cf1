//! The writer of a row's text.

ghost use Rattle.std.specs.Prelude.{◌≡◌, Some, List, IfOk};
ghost use Rattle.aircraft_file.specs.Craft.{Craft};
ghost use Rattle.flight_row.specs.declared.row.Version.TheVariants.{Two};
ghost use Rattle.flight_row.specs.RowText.{row_text};
ghost use Rattle.flight_row.specs.Loading.{HasRow, KeepsPlan, Reads, aircraft_of, row_of};

use crate::row_lines::{Changes, push_base, push_head, push_plan};
use aircraft_file::Aircraft;
use base_words::NoMemory;
use flight_state::FlightState;
use std::alloc::Global;
use telex::Builder;
use text_lines::write_lines;

/// The bytes of a row that few flights exceed.
const USUAL_LENGTH: usize = 512;

/// Writes the one row of a flight in the second version. Where its plan holds it is read back as the same flight.
pub fn write_row(alloc: Global, a: &Aircraft, s: &FlightState) -> Result<Vec<u8>, NoMemory>
    requires { HasRow a.now s.now }
    ensures written { IfOk result (λ text. text.items ≡ row_text Two (row_of a.now s.now)) }
    ensures read_back { (fleet : List Craft) → aircraft_of fleet s.now.leg ≡ Some a.now → KeepsPlan a.now s.now
        → IfOk result (λ text. Reads fleet text.items s.now) }
{
    let hold = a.hold();
    let _positions = hold.named_positions();
    let mut text = Builder::with_capacity(alloc, USUAL_LENGTH)?;
    push_head(&mut text, s)?;
    push_base(&mut text, &s.base)?;
    push_plan(&mut text, hold, s)?;
    write_lines(&Changes, s.lmcs.as_slice(), &mut text)?;
    text.text(b"END")?;
    text.end_line()?;
    Ok(text.finish())
}
