//! The keys 1 to 21: the aircraft's identity, and its sections of plain figures.

ghost use Rattle.std.specs.Prelude.{◌≡◌, IfOk};
ghost use Rattle.aircraft_file.specs.Figures.{averages_of, certified_of, chord_of, dry_of, figures_of, ideal_of, tolerance_of};
ghost use Rattle.aircraft_file.specs.Lawful.{AreAverages, AreFigures, IsBand, IsCertified, IsChord, IsDry, IsTolerance};
ghost use Rattle.aircraft_file.specs.Sections.{contents};

use crate::fault::FileFault;
use crate::figures::{Dry, Figures, Tolerance};
use crate::section::Section;
use mass_limits::Certified;
use mass_units::{Band, Chord};
use payload::Averages;

/// The greatest mass of an aircraft, in kilograms.
const MOST_MASS: u32 = 1_000_000;

/// The greatest distance from the datum, in millimetres.
const MOST_LENGTH: u32 = 100_000;

/// The greatest average mass, in kilograms.
const MOST_AVERAGE: u32 = 300;

fn read_dry(dry: &Section<'_>) -> Result<Dry, FileFault>
    ensures value { result ≡ dry_of (contents dry.now) }
    ensures limits { IfOk result IsDry }
{
    Ok(Dry {
        mass: dry.mass(3, "mass", 1, MOST_MASS)?,
        index: dry.index(4, "index")?,
    })
}

fn read_chord(chord: &Section<'_>) -> Result<Chord, FileFault>
    ensures value { result ≡ chord_of (contents chord.now) }
    ensures limits { IfOk result IsChord }
{
    Ok(Chord {
        k: chord.index(5, "k")?,
        c: chord.number(6, "c", 1, 1_000_000)?,
        reference_mm: chord.signed(7, "reference", MOST_LENGTH)?,
        lemac_mm: chord.signed(8, "lemac", MOST_LENGTH)?,
        mac_mm: chord.number(9, "mac", 1, MOST_LENGTH)?,
    })
}

fn read_certified(limits: &Section<'_>) -> Result<Certified, FileFault>
    ensures value { result ≡ certified_of (contents limits.now) }
    ensures limits { IfOk result IsCertified }
{
    Ok(Certified {
        ramp: limits.mass(10, "ramp", 1, MOST_MASS)?,
        zero_fuel: limits.mass(11, "zero_fuel", 1, MOST_MASS)?,
        take_off: limits.mass(12, "take_off", 1, MOST_MASS)?,
        landing: limits.mass(13, "landing", 1, MOST_MASS)?,
    })
}

fn read_tolerance(tolerance: &Section<'_>) -> Result<Tolerance, FileFault>
    ensures value { result ≡ tolerance_of (contents tolerance.now) }
    ensures limits { IfOk result IsTolerance }
{
    let mass = tolerance.mass(14, "mass", 0, MOST_MASS)?;
    let index = tolerance.index(15, "index")?;
    if index.0 < 0 {
        return Err(FileFault::Wrong(15));
    }
    Ok(Tolerance { mass, index })
}

fn read_ideal(trim: &Section<'_>) -> Result<Band, FileFault>
    ensures value { result ≡ ideal_of (contents trim.now) }
    ensures limits { IfOk result IsBand }
{
    let low = trim.index(16, "low")?;
    let high = trim.index(17, "high")?;
    if low.0 > high.0 {
        return Err(FileFault::Wrong(17));
    }
    Ok(Band { low, high })
}

fn read_averages(averages: &Section<'_>) -> Result<Averages, FileFault>
    ensures value { result ≡ averages_of (contents averages.now) }
    ensures limits { IfOk result AreAverages }
{
    Ok(Averages {
        adult: averages.mass(18, "adult", 0, MOST_AVERAGE)?,
        child: averages.mass(19, "child", 0, MOST_AVERAGE)?,
        infant: averages.mass(20, "infant", 0, MOST_AVERAGE)?,
        bag: averages.mass(21, "bag", 0, MOST_AVERAGE)?,
    })
}

/// The keys 1 to 21, or the first of them that fails.
pub fn read_figures(document: &Section<'_>) -> Result<Figures, FileFault>
    ensures value { result ≡ figures_of (contents document.now) }
    ensures limits { IfOk result AreFigures }
{
    Ok(Figures {
        registration: document.registration(1, "registration")?,
        version: document.version(2, "version")?,
        dry: read_dry(&document.section("dry"))?,
        chord: read_chord(&document.section("chord"))?,
        certified: read_certified(&document.section("limits"))?,
        tolerance: read_tolerance(&document.section("tolerance"))?,
        ideal: read_ideal(&document.section("trim"))?,
        averages: read_averages(&document.section("averages"))?,
    })
}
