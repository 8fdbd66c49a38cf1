//! What a line of a container message says of a position.

ghost use Rattle.std.specs.Prelude.{◌≡◌, ◌++◌, ◌∷◌, [], ℕ, List, Some, option_map, OnOk};
ghost use Rattle.std.specs.Borrow.{Bor};
ghost use Rattle.mass_units.specs.Spelling.{number_text};
ghost use Rattle.telex.specs.Elements.{slashed, line_text};
ghost use Rattle.ldm_cpm.specs.Messages.{content_elements, place_elements, IsSpelledPlacing};
ghost use Rattle.ldm_cpm.specs.Reading.{placing_said};
ghost use Rattle.ldm_cpm.specs.Sheets.{marked};
ghost use Rattle.transit_messages.specs.Entries.{entry_said};

use base_words::NoMemory;
use ldm_cpm::CpmPlace;
use mass_units::Kg;
use telex::Builder;

/// What is on a position: its name, the container on it, where what is on it goes, and the mass.
#[derive(Clone, Copy)]
pub struct Entry<'a> {
    pub name: &'a [u8],
    pub id: Option<&'a [u8]>,
    /// None where there is nothing.
    pub destination: Option<&'a [u8]>,
    pub mass: Kg,
}

/// What a place of another container message says.
pub fn entry_of<'a>(place: &CpmPlace<'a>) -> Entry<'a>
    ensures { entry_said result ≡ placing_said place.now }
{
    Entry {
        name: place.name.text,
        id: place.id.map(|id| id.text),
        destination: place.destination.map(|destination| destination.text),
        mass: place.mass,
    }
}

/// Appends a destination and a mass.
fn push_load(out: &mut Builder, destination: &[u8], mass: Kg) -> Result<(), NoMemory>
    ensures { OnOk result (out.new ≡ out.old ++ marked (slashed destination.now ∷ slashed (number_text mass.0) ∷ [])) }
{
    out.text(b"/")?;
    out.text(destination)?;
    out.text(b"/")?;
    out.mass(mass)
}

/// Appends a container or a loose load with its destination.
fn push_carried(
    out: &mut Builder,
    id: Option<&[u8]>,
    destination: &[u8],
    mass: Kg,
) -> Result<(), NoMemory>
    ensures { OnOk result (out.new ≡ out.old
        ++ marked (content_elements (option_map (λ (s : Bor (List ℕ)). s.now) id.entry) (Some destination.now) mass.0)) }
{
    match id {
        Some(id) => {
            out.text(b"/")?;
            out.text(id)?;
            push_load(out, destination, mass)
        }
        None => push_load(out, destination, mass),
    }
}

/// Appends what is on a position.
fn push_content(out: &mut Builder, entry: &Entry<'_>) -> Result<(), NoMemory>
    requires { IsSpelledPlacing (entry_said entry.now) }
    ensures { OnOk result (out.new ≡ out.old ++ marked (content_elements (entry_said entry.now).id
        (entry_said entry.now).destination (entry_said entry.now).mass.0)) }
{
    match entry.destination {
        Some(destination) => push_carried(out, entry.id, destination, entry.mass),
        None => out.text(b"/N"),
    }
}

/// Appends the line of a position.
pub fn push_entry(out: &mut Builder, entry: &Entry<'_>) -> Result<(), NoMemory>
    requires { IsSpelledPlacing (entry_said entry.now) }
    ensures { OnOk result (out.new ≡ out.old ++ (line_text (place_elements (entry_said entry.now)) ++ 10 ∷ [])) }
{
    out.text(b"-")?;
    out.text(entry.name)?;
    push_content(out, entry)?;
    out.end_line()
}
