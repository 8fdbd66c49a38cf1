//! The second line of a message: which flight it is about.

ghost use Rattle.std.specs.Prelude.{◌≡◌, ◌↔◌, ◌≤◌, ℕ, List, Some, None, [], ◌∷◌, ◌++◌, IsTrue, IsSome, IfSome, IsSomeAnd};
ghost use Rattle.mass_units.specs.Spelling.{number_text};
ghost use Rattle.telex.specs.Parts.{dot, slash};
ghost use Rattle.telex.specs.Elements.{said};
ghost use Rattle.telex.specs.declared.reading.Part.{Part};
ghost use Rattle.ldm_cpm.specs.Messages.{Heading, IsSpelledHeading, heading_elements, crew_elements};
ghost use Rattle.ldm_cpm.specs.Reading.{heading_of, heading_parts, crew_of};

use crate::messages::Head;
use crate::numbers::number_after;
use aircraft_file::{Registration, Version};
use last_minute::{Day, FlightName};
use telex::{DOT, Part, SLASH};

/// Whether the part has this separator before it.
fn is_after(mark: u8, part: &Part<'_>) -> bool
    ensures { IsTrue result ↔ (part.now.before ≡ mark) }
{
    part.before == mark
}

/// Whether the parts of the head are separated as they should be.
fn is_separated(head: &Head<'_>) -> bool
    ensures { IsTrue result ↔ ((head.now.flight.before ≡ 0) × (head.now.day.before ≡ slash)
        × (head.now.registration.before ≡ dot) × (head.now.version.before ≡ dot)) }
{
    is_after(0, &head.flight)
        && is_after(SLASH, &head.day)
        && is_after(DOT, &head.registration)
        && is_after(DOT, &head.version)
}

/// Whether the texts of the head are spelled as they should be.
fn is_spelled(head: &Head<'_>) -> bool
    ensures { IsTrue result ↔ IsSpelledHeading (heading_of head.now) }
{
    FlightName::read(head.flight.text).is_some()
        && Day::read(head.day.text).is_some()
        && Registration::read(head.registration.text).is_some()
        && Version::read(head.version.text).is_some()
}

/// The head of these parts, without a crew. None exactly where they spell none.
fn head_of<'a>(
    flight: &Part<'a>,
    day: &Part<'a>,
    registration: &Part<'a>,
    version: &Part<'a>,
) -> Option<Head<'a>>
    ensures parts { IfSome result (λ head.
        heading_parts head ≡ flight.now ∷ day.now ∷ registration.now ∷ version.now ∷ []) }
    ensures said { IfSome result (λ head. said (heading_parts head) ≡ heading_elements (heading_of head)) }
    ensures spelled { IfSome result (λ head. IsSpelledHeading (heading_of head)) }
    ensures alone { IfSome result (λ head. head.crew ≡ None) }
    ensures read_back { (h : Heading) → IsSpelledHeading h
        → said (flight.now ∷ day.now ∷ registration.now ∷ version.now ∷ []) ≡ heading_elements h
        → IsSomeAnd result (λ head. heading_of head ≡ h) }
{
    let head = Head {
        flight: *flight,
        day: *day,
        registration: *registration,
        version: *version,
        crew: None,
    };
    if is_separated(&head) && is_spelled(&head) {
        Some(head)
    } else {
        None
    }
}

/// The head that the parts spell, without a crew. None exactly where they spell none.
pub fn read_head<'a>(parts: &[Part<'a>]) -> Option<Head<'a>>
    ensures parts { IfSome result (λ head. parts.now ≡ heading_parts head) }
    ensures said { IfSome result (λ head. said parts.now ≡ heading_elements (heading_of head)) }
    ensures spelled { IfSome result (λ head. IsSpelledHeading (heading_of head)) }
    ensures alone { IfSome result (λ head. head.crew ≡ None) }
    ensures read_back { (h : Heading) → IsSpelledHeading h → said parts.now ≡ heading_elements h
        → IsSomeAnd result (λ head. heading_of head ≡ h) }
{
    match parts {
        [flight, day, registration, version] => head_of(flight, day, registration, version),
        _ => None,
    }
}

/// How many of the crew the part says there are after the separator: at most 99.
fn read_crew(mark: u8, part: &Part<'_>) -> Option<u8>
    ensures some { IfSome result (λ n. (part.now.before ≡ mark) × (n ≤ 99)
        × (part.now.text.now ≡ number_text n)) }
    ensures read_back { (n : ℕ) → n ≤ 99 → part.now.before ≡ mark → part.now.text.now ≡ number_text n
        → result ≡ Some n }
{
    match number_after(mark, part) {
        Some(n) if n <= 99 => Some(n as u8),
        _ => None,
    }
}

/// The head that the parts spell, with its crew in the cockpit and in the cabin. None exactly where they spell none.
pub fn read_crew_head<'a>(parts: &[Part<'a>]) -> Option<Head<'a>>
    ensures parts { IfSome result (λ head. (more : List Part) × (parts.now ≡ heading_parts head ++ more)) }
    ensures said { IfSome result (λ head. said parts.now
        ≡ crew_elements (heading_of head) (crew_of head).0 (crew_of head).1) }
    ensures spelled { IfSome result (λ head. IsSpelledHeading (heading_of head)) }
    ensures given { IfSome result (λ head. IsSome head.crew) }
    ensures crew { IfSome result (λ head. ((crew_of head).0 ≤ 99) × ((crew_of head).1 ≤ 99)) }
    ensures read_back { (h : Heading) (cockpit cabin : ℕ) → IsSpelledHeading h → cockpit ≤ 99 → cabin ≤ 99
        → said parts.now ≡ crew_elements h cockpit cabin
        → IsSomeAnd result (λ head. (heading_of head ≡ h) × (crew_of head ≡ (cockpit, cabin))) }
{
    match parts {
        [flight, day, registration, version, cockpit, cabin] => {
            let head = head_of(flight, day, registration, version)?;
            let crew = (read_crew(DOT, cockpit)?, read_crew(SLASH, cabin)?);
            Some(Head {
                crew: Some(crew),
                ..head
            })
        }
        _ => None,
    }
}
