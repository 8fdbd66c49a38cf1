//! The lines of an aircraft's envelopes, of its fuel table and of its cabin.

ghost use Rattle.std.specs.Prelude.{◌≡◌, ◌<◌, ◌++◌, ◌∷◌, [], map, OnOk};
ghost use Rattle.std.specs.List.{enumerate_from};
ghost use Rattle.text_lines.specs.Lines.{text_of};
ghost use Rattle.aircraft_text.specs.AircraftText.{corner_line, envelope_lines, outline_lines, zone_line};

use crate::centre::centre_at;
use crate::words::{Word, push_line, push_words};
use aircraft_file::Aircraft;
use base_words::NoMemory;
use envelope::{Corner, Envelope};
use fuel_table::FuelRow;
use mass_units::Chord;
use payload::Zone;
use telex::Builder;
use text_lines::{EntryWriter, write_lines};

/// The corners of a side of an envelope.
#[derive(Clone, Copy)]
struct Corners<'a> {
    chord: &'a Chord,
    envelope: &'a [u8],
    side: &'a [u8],
    ghost long: { 0 < chord.now.mac_mm },
}

/// The rows of a fuel table.
#[derive(Clone, Copy)]
pub struct FuelRows;

impl EntryWriter for Corners<'_> {
    ghost use Rattle.aircraft_text.specs.AircraftText.{corner_line};

    type Entry = Corner;

    ghost text = { λ w. corner_line w.chord.now w.envelope.now w.side.now };

    ghost spelled = { λ _ _. Unit {0} };

    fn write(&self, corner: &Corner, out: &mut Builder) -> Result<(), NoMemory> {
        push_words(
            out,
            b"envelope",
            &[
                Word::Text(self.envelope),
                Word::Text(self.side),
                Word::Mass(corner.mass),
                Word::Index(corner.index),
                Word::Percent(centre_at(self.chord, corner)),
            ],
        )
    }
}

impl EntryWriter for FuelRows {
    ghost use Rattle.aircraft_text.specs.AircraftText.{fuel_line};

    type Entry = FuelRow;

    ghost text = { λ _. fuel_line };

    ghost spelled = { λ _ _. Unit {0} };

    fn write(&self, row: &FuelRow, out: &mut Builder) -> Result<(), NoMemory> {
        push_words(
            out,
            b"fuel",
            &[Word::Mass(row.fuel), Word::Index(row.index)],
        )
    }
}

/// Appends the corners of a side of the envelope with this name.
fn push_side(
    out: &mut Builder,
    chord: &Chord,
    envelope: &[u8],
    side: &[u8],
    corners: &[Corner],
) -> Result<(), NoMemory>
    requires { 0 < chord.now.mac_mm }
    ensures { OnOk result
        (out.new ≡ out.old ++ text_of (map (corner_line chord.now envelope.now side.now) corners.now)) }
{
    let writer = Corners {
        chord,
        envelope,
        side,
    };
    write_lines(&writer, corners, out)
}

/// Appends the corners of both sides of the envelope with this name.
fn push_outline(
    out: &mut Builder,
    chord: &Chord,
    name: &[u8],
    envelope: &Envelope,
) -> Result<(), NoMemory>
    requires { 0 < chord.now.mac_mm }
    ensures { OnOk result (out.new ≡ out.old ++ text_of (outline_lines chord.now name.now envelope.now)) }
{
    push_side(out, chord, name, b"forward", envelope.forward())?;
    push_side(out, chord, name, b"aft", envelope.aft())
}

/// Appends the corners of the three envelopes.
pub fn push_envelopes(out: &mut Builder, a: &Aircraft) -> Result<(), NoMemory>
    ensures { OnOk result (out.new ≡ out.old ++ text_of (envelope_lines a.now)) }
{
    let chord = a.chord();
    push_outline(out, chord, b"zero_fuel", a.zero_fuel())?;
    push_outline(out, chord, b"take_off", a.take_off())?;
    push_outline(out, chord, b"landing", a.landing())
}

/// Appends the line of the zone with this number.
fn push_zone(out: &mut Builder, number: usize, zone: &Zone) -> Result<(), NoMemory>
    ensures { OnOk result (out.new ≡ out.old ++ text_of (zone_line (number, zone.now) ∷ [])) }
{
    push_line(
        out,
        b"zone",
        &[
            Word::Number(number as u64),
            Word::Text(b"capacity"),
            Word::Number(u64::from(zone.capacity)),
            Word::Text(b"influence"),
            Word::Signed(zone.influence),
        ],
    )
}

/// Appends the zones, numbered from 1.
pub fn push_zones(out: &mut Builder, zones: &[Zone]) -> Result<(), NoMemory>
    ensures { OnOk result (out.new ≡ out.old ++ text_of (map zone_line (enumerate_from 1 zones.now))) }
{
    for (place, zone) in zones.iter().enumerate() {
        push_zone(out, place + 1, zone)?;
    }
    Ok(())
}
