//! The writer of load messages.

ghost use Rattle.std.specs.Prelude.{◌≡◌, ◌+◌, ◌++◌, ◌∷◌, [], codes, IfOk, OnOk};
ghost use Rattle.mass_units.specs.Spelling.{number_text};
ghost use Rattle.telex.specs.Elements.{line_text};
ghost use Rattle.ldm_cpm.specs.Messages.{heading_elements, crew_elements, board_elements, ldm_text, IsSpelledLdm, IsLdm};
ghost use Rattle.ldm_cpm.specs.Sheets.{heading_on, board_on, ldm_of};

use crate::compartments::{push_loads, total_mass};
use base_words::NoMemory;
use last_minute::Sheet;
use std::alloc::Global;
use telex::Builder;

/// Appends which flight the sheet is about.
pub fn push_heading(out: &mut Builder, s: &Sheet) -> Result<(), NoMemory>
    ensures { OnOk result (out.new ≡ out.old ++ line_text (heading_elements (heading_on s.now))) }
{
    out.text(s.leg.flight.bytes())?;
    out.text(b"/")?;
    out.text(s.leg.day.bytes())?;
    out.text(b".")?;
    out.text(s.leg.registration.bytes())?;
    out.text(b".")?;
    out.text(s.version.bytes())
}

/// Appends the line of the flight with its crew.
fn push_crew(out: &mut Builder, s: &Sheet) -> Result<(), NoMemory>
    ensures { OnOk result (out.new
        ≡ out.old ++ (line_text (crew_elements (heading_on s.now) s.now.dry.cockpit s.now.dry.attendants) ++ 10 ∷ [])) }
{
    push_heading(out, s)?;
    out.text(b".")?;
    out.count(u64::from(s.dry.cockpit))?;
    out.text(b"/")?;
    out.count(u64::from(s.dry.attendants))?;
    out.end_line()
}

/// Appends the persons on board, up to the mass of the loads.
fn push_persons(out: &mut Builder, s: &Sheet) -> Result<(), NoMemory>
    ensures { OnOk result (out.new ≡ out.old ++ (codes "-" ++ s.now.leg.destination ++ codes "." ++ number_text s.now.adults
        ++ codes "/" ++ number_text s.now.children ++ codes "/" ++ number_text s.now.infants)) }
{
    out.text(b"-")?;
    out.text(s.leg.destination.bytes())?;
    out.text(b".")?;
    out.count(u64::from(s.adults))?;
    out.text(b"/")?;
    out.count(u64::from(s.children))?;
    out.text(b"/")?;
    out.count(u64::from(s.infants))
}

/// Appends the line of what is on board.
fn push_board(out: &mut Builder, s: &Sheet) -> Result<(), NoMemory>
    ensures { OnOk result (out.new ≡ out.old ++ (line_text (board_elements (board_on s.now)) ++ 10 ∷ [])) }
{
    let places = s.places.as_slice();
    push_persons(out, s)?;
    out.text(b".T")?;
    out.sum(total_mass(places))?;
    push_loads(out, places)?;
    out.text(b".PAX/")?;
    out.count(u64::from(s.adults) + u64::from(s.children))?;
    out.end_line()
}

/// Writes the one load message of the sheet. Where each number has at most nine digits and each compartment is a digit, it is
/// read back.
pub fn write_ldm(alloc: Global, s: &Sheet) -> Result<Vec<u8>, NoMemory>
    ensures written { IfOk result (λ text. text.items ≡ ldm_text (ldm_of s.now)) }
    ensures read_back { IsSpelledLdm (ldm_of s.now) → IfOk result (λ text. IsLdm text.items (ldm_of s.now)) }
{
    let mut out = Builder::new(alloc);
    out.text(b"LDM\n")?;
    push_crew(&mut out, s)?;
    push_board(&mut out, s)?;
    Ok(out.finish())
}
