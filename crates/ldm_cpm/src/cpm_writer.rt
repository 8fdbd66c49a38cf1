//! The writer of container messages.

ghost use Rattle.std.specs.Prelude.{◌≡◌, ◌++◌, ◌∷◌, [], ◌&&◌, nat_lt, map, IfOk, OnOk};
ghost use Rattle.mass_units.specs.Spelling.{number_text};
ghost use Rattle.telex.specs.Elements.{slashed, line_text};
ghost use Rattle.text_lines.specs.Lines.{text_of};
ghost use Rattle.ldm_cpm.specs.Messages.{place_elements, place_lines, cpm_text, IsSpelledCpm, IsCpm};
ghost use Rattle.ldm_cpm.specs.Sheets.{marked, loose_elements, elements_on, placing_of, cpm_of};

use crate::ldm_writer::push_heading;
use base_words::NoMemory;
use last_minute::{Place, Sheet};
use mass_units::Kg;
use std::alloc::Global;
use telex::Builder;

/// Appends a destination and a mass.
fn push_load(out: &mut Builder, destination: &[u8], mass: Kg) -> Result<(), NoMemory>
    ensures { OnOk result (out.new ≡ out.old ++ marked (slashed destination.now ∷ slashed (number_text mass.0) ∷ [])) }
{
    out.text(b"/")?;
    out.text(destination)?;
    out.text(b"/")?;
    out.mass(mass)
}

/// Whether the position carries a loose load.
fn is_loaded(place: &Place) -> bool
    ensures { result ≡ (place.now.bulk && nat_lt 0 place.now.mass.0) }
{
    place.bulk && place.mass.0 > 0
}

/// Appends what is on a position without a container: a loose load, or nothing.
fn push_loose(out: &mut Builder, destination: &[u8], place: &Place) -> Result<(), NoMemory>
    ensures { OnOk result (out.new ≡ out.old ++ marked (loose_elements destination.now place.now)) }
{
    if is_loaded(place) {
        push_load(out, destination, place.mass)
    } else {
        out.text(b"/N")
    }
}

/// Appends what is on a position: a container, a loose load, or nothing.
fn push_content(out: &mut Builder, destination: &[u8], place: &Place) -> Result<(), NoMemory>
    ensures { OnOk result (out.new ≡ out.old ++ marked (elements_on destination.now place.now place.now.id)) }
{
    match &place.id {
        Some(id) => {
            out.text(b"/")?;
            out.text(id.bytes())?;
            push_load(out, destination, place.mass)
        }
        None => push_loose(out, destination, place),
    }
}

/// Appends the line of a position.
fn push_place(out: &mut Builder, destination: &[u8], place: &Place) -> Result<(), NoMemory>
    ensures { OnOk result (out.new ≡ out.old ++ (line_text (place_elements (placing_of destination.now place.now)) ++ 10 ∷ [])) }
{
    out.text(b"-")?;
    out.text(place.name.bytes())?;
    push_content(out, destination, place)?;
    out.end_line()
}

/// Appends the lines of the positions.
fn push_places(out: &mut Builder, destination: &[u8], places: &[Place]) -> Result<(), NoMemory>
    ensures { OnOk result (out.new
        ≡ out.old ++ text_of (place_lines (map (placing_of destination.now) places.now))) }
{
    for place in places {
        push_place(out, destination, place)?;
    }
    Ok(())
}

/// Writes the one container message of the sheet. Where the names differ and each mass has at most nine digits, it is read
/// back.
pub fn write_cpm(alloc: Global, s: &Sheet) -> Result<Vec<u8>, NoMemory>
    ensures written { IfOk result (λ text. text.items ≡ cpm_text (cpm_of s.now)) }
    ensures read_back { IsSpelledCpm (cpm_of s.now) → IfOk result (λ text. IsCpm text.items (cpm_of s.now)) }
{
    let mut out = Builder::new(alloc);
    out.text(b"CPM\n")?;
    push_heading(&mut out, s)?;
    out.end_line()?;
    push_places(&mut out, s.leg.destination.bytes(), s.places.as_slice())?;
    Ok(out.finish())
}
