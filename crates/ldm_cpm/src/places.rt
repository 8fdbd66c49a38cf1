//! The lines of positions of a container message.

ghost use Rattle.std.specs.Prelude.{◌≡◌, ℕ, ◌+◌, ◌↔◌, ◌++◌, ◌∷◌, [], List, Some, None, true, codes, IsTrue, IfSome, IsSomeAnd};
ghost use Rattle.hold_parts.specs.Spellings.{IsName, IsUldId};
ghost use Rattle.flight_state.specs.Spellings.{is_station};
ghost use Rattle.telex.specs.Elements.{said};
ghost use Rattle.telex.specs.Parts.{slash};
ghost use Rattle.telex.specs.declared.reading.Part.{Part};
ghost use Rattle.ldm_cpm.specs.Messages.{Placing, content_elements, place_elements, IsSpelledContent, IsSpelledPlacing};
ghost use Rattle.ldm_cpm.specs.Reading.{placing_said, PartsStand};

use crate::messages::CpmPlace;
use crate::numbers::number_after;
use hold_limits::{Name, UldId};
use last_minute::Station;
use mass_units::Kg;
use telex::{Part, SLASH};

/// The word for a position with nothing on it.
const NOTHING: &[u8] = b"N";

/// The name that the first part of the line spells after its hyphen.
fn read_name<'a>(part: &Part<'a>) -> Option<Part<'a>>
    ensures some { IfSome result (λ name. (part.now.before ≡ 0) × (part.now.text.now ≡ codes "-" ++ name.text.now)
        × IsName name.text.now × (name.before ≡ 0) × (name.at ≡ part.now.at + 1)) }
    ensures read_back { (text : List ℕ) → IsName text → part.now.before ≡ 0
        → part.now.text.now ≡ codes "-" ++ text → IsSomeAnd result (λ name. name.text.now ≡ text) }
{
    let name = part.after_mark(b'-')?;
    if part.before == 0 && Name::read(name.text).is_some() {
        Some(name)
    } else {
        None
    }
}

/// Whether the part spells a station after a slash.
fn is_destination(part: &Part<'_>) -> bool
    ensures { IsTrue result ↔ ((part.now.before ≡ slash) × (is_station part.now.text.now ≡ true)) }
{
    part.before == SLASH && Station::read(part.text).is_some()
}

/// Whether the part spells the identity of a container after a slash.
fn is_id(part: &Part<'_>) -> bool
    ensures { IsTrue result ↔ ((part.now.before ≡ slash) × IsUldId part.now.text.now) }
{
    part.before == SLASH && UldId::read(part.text).is_some()
}

/// A position with nothing on it, where the part says so.
fn read_empty<'a>(name: Part<'a>, nothing: &Part<'a>) -> Option<CpmPlace<'a>>
    ensures some { IfSome result (λ place. (place ≡ record { name = name.entry; id = None; destination = None; mass = record { 0 = 0 } })
        × (nothing.now.before ≡ slash) × (nothing.now.text.now ≡ codes "N")) }
    ensures read_back { nothing.now.before ≡ slash → nothing.now.text.now ≡ codes "N"
        → result ≡ Some (record { name = name.entry; id = None; destination = None; mass = record { 0 = 0 } }) }
{
    if nothing.before != SLASH || nothing.text != NOTHING {
        return None;
    }
    Some(CpmPlace {
        name,
        id: None,
        destination: None,
        mass: Kg(0),
    })
}

/// A position with a loose load for a destination, whose mass is not 0.
fn read_bulk<'a>(name: Part<'a>, destination: &Part<'a>, mass: &Part<'a>) -> Option<CpmPlace<'a>>
    ensures some { IfSome result (λ place. (place.name ≡ name.entry) × (place.id ≡ None) × (place.destination ≡ Some destination.now)
        × (said (destination.now ∷ mass.now ∷ []) ≡ content_elements None (Some destination.now.text.now) place.mass.0)
        × IsSpelledContent None (Some destination.now.text.now) place.mass.0) }
    ensures read_back { (n : ℕ) → IsSpelledContent None (Some destination.now.text.now) n
        → said (destination.now ∷ mass.now ∷ []) ≡ content_elements None (Some destination.now.text.now) n
        → result ≡ Some (record { name = name.entry; id = None; destination = Some destination.now; mass = record { 0 = n } }) }
{
    let mass = number_after(SLASH, mass)?;
    if mass == 0 || !is_destination(destination) {
        return None;
    }
    Some(CpmPlace {
        name,
        id: None,
        destination: Some(*destination),
        mass: Kg(mass),
    })
}

/// A position with a container for a destination.
fn read_container<'a>(
    name: Part<'a>,
    id: &Part<'a>,
    destination: &Part<'a>,
    mass: &Part<'a>,
) -> Option<CpmPlace<'a>>
    ensures some { IfSome result (λ place. (place.name ≡ name.entry) × (place.id ≡ Some id.now) × (place.destination ≡ Some destination.now)
        × (said (id.now ∷ destination.now ∷ mass.now ∷ [])
        ≡ content_elements (Some id.now.text.now) (Some destination.now.text.now) place.mass.0)
        × IsSpelledContent (Some id.now.text.now) (Some destination.now.text.now) place.mass.0) }
    ensures read_back { (n : ℕ) → IsSpelledContent (Some id.now.text.now) (Some destination.now.text.now) n
        → said (id.now ∷ destination.now ∷ mass.now ∷ [])
        ≡ content_elements (Some id.now.text.now) (Some destination.now.text.now) n
        → result ≡ Some (record { name = name.entry; id = Some id.now; destination = Some destination.now; mass = record { 0 = n } }) }
{
    let mass = number_after(SLASH, mass)?;
    if !is_id(id) || !is_destination(destination) {
        return None;
    }
    Some(CpmPlace {
        name,
        id: Some(*id),
        destination: Some(*destination),
        mass: Kg(mass),
    })
}

/// The position that the parts of a line spell. None exactly where they spell none.
pub fn read_place<'a>(parts: &[Part<'a>]) -> Option<CpmPlace<'a>>
    ensures spelled { IfSome result (λ place. IsSpelledPlacing (placing_said place)) }
    ensures said { IfSome result (λ place. said parts.now ≡ place_elements (placing_said place)) }
    ensures stands { IfSome result (PartsStand parts.now) }
    ensures read_back { (p : Placing) → IsSpelledPlacing p → said parts.now ≡ place_elements p
        → IsSomeAnd result (λ place. placing_said place ≡ p) }
{
    match parts {
        [name, nothing] => read_empty(read_name(name)?, nothing),
        [name, destination, mass] => read_bulk(read_name(name)?, destination, mass),
        [name, id, destination, mass] => read_container(read_name(name)?, id, destination, mass),
        _ => None,
    }
}
