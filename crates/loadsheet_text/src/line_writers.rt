//! Lines of a loadsheet, appended to a text.

ghost use Rattle.std.specs.Prelude.{◌≡◌, ◌++◌, ◌∷◌, [], OnOk};
ghost use Rattle.text_lines.specs.Lines.{text_of};
ghost use Rattle.loadsheet_text.specs.SheetText.{leg_line, number_line, passenger_line, limited_line, underload_line, index_line, chord_line, change_line, limit_mark};

use base_words::NoMemory;
use last_minute::{Leg, Lmc, Sheet};
use mass_limits::{Limiting, Underload};
use mass_units::{Kg, Ticks};
use telex::Builder;

/// Appends the line of the leg.
pub fn push_leg(out: &mut Builder, leg: &Leg) -> Result<(), NoMemory>
    ensures { OnOk result (out.new ≡ out.old ++ text_of (leg_line leg.now ∷ [])) }
{
    out.text(leg.flight.bytes())?;
    out.text(b"/")?;
    out.text(leg.day.bytes())?;
    out.text(b".")?;
    out.text(leg.registration.bytes())?;
    out.text(b".")?;
    out.text(leg.origin.bytes())?;
    out.text(b".")?;
    out.text(leg.destination.bytes())?;
    out.end_line()
}

/// Appends the line of a number and of what it is.
pub fn push_number(out: &mut Builder, what: &[u8], number: u64) -> Result<(), NoMemory>
    ensures { OnOk result (out.new ≡ out.old ++ text_of (number_line what.now number ∷ [])) }
{
    out.text(what)?;
    out.text(b" ")?;
    out.count(number)?;
    out.end_line()
}

/// Appends the line of a mass and of what it is.
pub fn push_mass(out: &mut Builder, what: &[u8], mass: Kg) -> Result<(), NoMemory>
    ensures { OnOk result (out.new ≡ out.old ++ text_of (number_line what.now mass.0 ∷ [])) }
{
    push_number(out, what, u64::from(mass.0))
}

/// Appends the line of the passengers.
pub fn push_passengers(out: &mut Builder, s: &Sheet) -> Result<(), NoMemory>
    ensures { OnOk result (out.new ≡ out.old ++ text_of (passenger_line s.now ∷ [])) }
{
    out.text(b"PAX ")?;
    out.count(u64::from(s.adults) + u64::from(s.children))?;
    out.text(b"/")?;
    out.count(u64::from(s.infants))?;
    out.end_line()
}

/// Appends the line of a mass with its limit, and with a mark where it is the limiting one.
pub fn push_limited(
    out: &mut Builder,
    what: &[u8],
    mass: Kg,
    most: Kg,
    mark: &[u8],
) -> Result<(), NoMemory>
    ensures { OnOk result
        (out.new ≡ out.old ++ text_of (limited_line what.now mass.0 most.0 mark.now ∷ [])) }
{
    out.text(what)?;
    out.text(b" ")?;
    out.mass(mass)?;
    out.text(b" MAX ")?;
    out.mass(most)?;
    out.text(mark)?;
    out.end_line()
}

/// The mark on the line of a mass: a mark where that mass is the limiting one, and nothing elsewhere.
pub fn limit_mark(mass: Limiting, limiting: Limiting) -> &'static [u8]
    ensures { result.now ≡ limit_mark mass limiting }
{
    if mass == limiting { b" L" } else { b"" }
}

/// Appends the line of the underload.
pub fn push_underload(out: &mut Builder, underload: &Underload) -> Result<(), NoMemory>
    ensures { OnOk result (out.new ≡ out.old ++ text_of (underload_line underload.now.kg ∷ [])) }
{
    out.text(b"UNDERLOAD ")?;
    out.number(underload.kg)?;
    out.end_line()
}

/// Appends the line of the indices.
pub fn push_indices(
    out: &mut Builder,
    dry: Ticks,
    zero_fuel: Ticks,
    take_off: Ticks,
    landing: Ticks,
) -> Result<(), NoMemory>
    ensures { OnOk result
        (out.new ≡ out.old ++ text_of (index_line dry.0 zero_fuel.0 take_off.0 landing.0 ∷ [])) }
{
    out.text(b"DOI ")?;
    out.short_index(dry)?;
    out.text(b" LIZFW ")?;
    out.short_index(zero_fuel)?;
    out.text(b" LITOW ")?;
    out.short_index(take_off)?;
    out.text(b" LILAW ")?;
    out.short_index(landing)?;
    out.end_line()
}

/// Appends the line of the percentages of the mean aerodynamic chord, of zero fuel, of take-off and of landing.
pub fn push_chord(out: &mut Builder, centres: &[i128; 3]) -> Result<(), NoMemory>
    ensures { OnOk result (out.new ≡ out.old ++ text_of (chord_line centres.now ∷ [])) }
{
    let [zero_fuel, take_off, landing] = centres;
    out.text(b"MACZFW ")?;
    out.hundredths(*zero_fuel)?;
    out.text(b" MACTOW ")?;
    out.hundredths(*take_off)?;
    out.text(b" MACLAW ")?;
    out.hundredths(*landing)?;
    out.end_line()
}

/// Appends the line of a late change.
pub fn push_change(out: &mut Builder, change: &Lmc) -> Result<(), NoMemory>
    ensures { OnOk result (out.new ≡ out.old ++ text_of (change_line change.now ∷ [])) }
{
    match change {
        Lmc::Cabin {
            zone,
            adults,
            children,
            infants,
        } => {
            out.text(b"LMC ZONE ")?;
            out.count(u64::from(*zone))?;
            out.text(b" ")?;
            out.number(i64::from(*adults))?;
            out.text(b"/")?;
            out.number(i64::from(*children))?;
            out.text(b"/")?;
            out.number(i64::from(*infants))?;
            out.end_line()
        }
        Lmc::Loose {
            position,
            mass,
            pieces,
        } => {
            out.text(b"LMC BULK ")?;
            out.text(position.bytes())?;
            out.text(b" ")?;
            out.number(i64::from(*mass))?;
            out.text(b"/")?;
            out.number(i64::from(*pieces))?;
            out.end_line()
        }
    }
}
