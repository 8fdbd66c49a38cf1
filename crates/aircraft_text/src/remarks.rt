//! What in a lawful aircraft is hardly meant.

ghost use Rattle.std.specs.Prelude.{◌≡◌, filter};
ghost use Rattle.aircraft_text.specs.Notes.{applies, begins_above, notes_of, note_text};

use aircraft_file::Aircraft;
use arrayvec::ArrayVec;
use envelope::Envelope;
use mass_units::Kg;

/// A part of a flight, of which an aircraft has a limit of the mass and an envelope.
#[derive(Clone, Copy, Debug, Default, PartialEq, Eq)]
pub enum Phase {
    #[default]
    ZeroFuel,
    TakeOff,
    Landing,
}

/// What is worth a look in a file that is read. The default only fills the unused slots of a list.
#[derive(Clone, Copy, Debug, Default, PartialEq, Eq)]
pub enum Note {
    /// The certified ramp mass is below the certified take-off mass.
    #[default]
    RampBelowTakeOff,
    /// The certified zero-fuel mass is above the certified take-off mass.
    ZeroFuelAboveTakeOff,
    /// The envelope begins above the certified mass of its kind, so no mass that is allowed is inside it.
    Unmet(Phase),
}

impl Note {
    /// The note in words.
    pub fn text(self) -> &'static [u8]
        ensures { result.now ≡ note_text self }
    {
        match self {
            Note::RampBelowTakeOff => b"ramp limit below the take-off limit",
            Note::ZeroFuelAboveTakeOff => b"zero-fuel limit above the take-off limit",
            Note::Unmet(Phase::ZeroFuel) => b"no mass within the limits meets envelope zero_fuel",
            Note::Unmet(Phase::TakeOff) => b"no mass within the limits meets envelope take_off",
            Note::Unmet(Phase::Landing) => b"no mass within the limits meets envelope landing",
        }
    }

    /// Whether the note is to be made of the aircraft.
    fn applies(self, a: &Aircraft) -> bool
        ensures { result ≡ applies a.now self }
    {
        let limits = a.certified();
        match self {
            Note::RampBelowTakeOff => limits.ramp.0 < limits.take_off.0,
            Note::ZeroFuelAboveTakeOff => limits.take_off.0 < limits.zero_fuel.0,
            Note::Unmet(Phase::ZeroFuel) => begins_above(limits.zero_fuel, a.zero_fuel()),
            Note::Unmet(Phase::TakeOff) => begins_above(limits.take_off, a.take_off()),
            Note::Unmet(Phase::Landing) => begins_above(limits.landing, a.landing()),
        }
    }
}

/// Whether the first mass of the envelope is above the mass.
fn begins_above(mass: Kg, envelope: &Envelope) -> bool
    ensures { result ≡ begins_above mass envelope.now }
{
    envelope
        .forward()
        .first()
        .is_some_and(|corner| mass.0 < corner.mass.0)
}

/// The notes on the aircraft, in the order of `Note`.
pub fn notes(a: &Aircraft) -> ArrayVec<Note, 5>
    ensures { result.items ≡ notes_of a.now }
{
    let mut found = ArrayVec::from([
        Note::RampBelowTakeOff,
        Note::ZeroFuelAboveTakeOff,
        Note::Unmet(Phase::ZeroFuel),
        Note::Unmet(Phase::TakeOff),
        Note::Unmet(Phase::Landing),
    ]);
    found.retain(|note| note.applies(a));
    found
}
