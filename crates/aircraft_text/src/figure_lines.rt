//! The lines of an aircraft's plain figures.

ghost use Rattle.std.specs.Prelude.{◌≡◌, ◌++◌, ◌∷◌, [], OnOk};
ghost use Rattle.text_lines.specs.Lines.{text_of};
ghost use Rattle.aircraft_text.specs.AircraftText.{registration_line, version_line, dry_line, chord_line, limits_line, tolerance_line, trim_line, averages_line, figure_lines};

use crate::words::{Word, push_line};
use aircraft_file::Aircraft;
use base_words::NoMemory;
use mass_limits::Certified;
use mass_units::Chord;
use payload::Averages;
use telex::Builder;

/// Appends which aircraft it is.
fn push_identity(out: &mut Builder, a: &Aircraft) -> Result<(), NoMemory>
    ensures { OnOk result (out.new ≡ out.old ++ text_of (registration_line a.now ∷ version_line a.now ∷ [])) }
{
    push_line(out, b"AIRCRAFT", &[Word::Text(a.registration().bytes())])?;
    push_line(out, b"version", &[Word::Text(a.version().bytes())])
}

/// Appends its mass without a load.
fn push_dry(out: &mut Builder, a: &Aircraft) -> Result<(), NoMemory>
    ensures { OnOk result (out.new ≡ out.old ++ text_of (dry_line a.now ∷ [])) }
{
    push_line(
        out,
        b"dry",
        &[
            Word::Text(b"mass"),
            Word::Mass(a.dry_mass()),
            Word::Text(b"index"),
            Word::Index(a.dry_index()),
        ],
    )
}

/// Appends where its index and its mean aerodynamic chord lie.
fn push_chord(out: &mut Builder, chord: &Chord) -> Result<(), NoMemory>
    ensures { OnOk result (out.new ≡ out.old ++ text_of (chord_line chord.now ∷ [])) }
{
    push_line(
        out,
        b"chord",
        &[
            Word::Text(b"k"),
            Word::Index(chord.k),
            Word::Text(b"c"),
            Word::Number(u64::from(chord.c)),
            Word::Text(b"reference"),
            Word::Signed(chord.reference_mm),
            Word::Text(b"lemac"),
            Word::Signed(chord.lemac_mm),
            Word::Text(b"mac"),
            Word::Number(u64::from(chord.mac_mm)),
        ],
    )
}

/// Appends the masses for which it is certified.
fn push_limits(out: &mut Builder, limits: &Certified) -> Result<(), NoMemory>
    ensures { OnOk result (out.new ≡ out.old ++ text_of (limits_line limits.now ∷ [])) }
{
    push_line(
        out,
        b"limits",
        &[
            Word::Text(b"ramp"),
            Word::Mass(limits.ramp),
            Word::Text(b"zero_fuel"),
            Word::Mass(limits.zero_fuel),
            Word::Text(b"take_off"),
            Word::Mass(limits.take_off),
            Word::Text(b"landing"),
            Word::Mass(limits.landing),
        ],
    )
}

/// Appends what late changes may change.
fn push_tolerance(out: &mut Builder, a: &Aircraft) -> Result<(), NoMemory>
    ensures { OnOk result (out.new ≡ out.old ++ text_of (tolerance_line a.now ∷ [])) }
{
    push_line(
        out,
        b"tolerance",
        &[
            Word::Text(b"mass"),
            Word::Mass(a.tolerance_mass()),
            Word::Text(b"index"),
            Word::Index(a.tolerance_index()),
        ],
    )
}

/// Appends the ideal band.
fn push_trim(out: &mut Builder, a: &Aircraft) -> Result<(), NoMemory>
    ensures { OnOk result (out.new ≡ out.old ++ text_of (trim_line a.now ∷ [])) }
{
    push_line(
        out,
        b"trim",
        &[
            Word::Text(b"low"),
            Word::Index(a.ideal_low()),
            Word::Text(b"high"),
            Word::Index(a.ideal_high()),
        ],
    )
}

/// Appends the average masses.
fn push_averages(out: &mut Builder, averages: &Averages) -> Result<(), NoMemory>
    ensures { OnOk result (out.new ≡ out.old ++ text_of (averages_line averages.now ∷ [])) }
{
    push_line(
        out,
        b"averages",
        &[
            Word::Text(b"adult"),
            Word::Mass(averages.adult),
            Word::Text(b"child"),
            Word::Mass(averages.child),
            Word::Text(b"infant"),
            Word::Mass(averages.infant),
            Word::Text(b"bag"),
            Word::Mass(averages.bag),
        ],
    )
}

/// Appends the lines of the plain figures.
pub fn push_figures(out: &mut Builder, a: &Aircraft) -> Result<(), NoMemory>
    ensures { OnOk result (out.new ≡ out.old ++ text_of (figure_lines a.now)) }
{
    push_identity(out, a)?;
    push_dry(out, a)?;
    push_chord(out, a.chord())?;
    push_limits(out, a.certified())?;
    push_tolerance(out, a)?;
    push_trim(out, a)?;
    push_averages(out, a.averages())
}
