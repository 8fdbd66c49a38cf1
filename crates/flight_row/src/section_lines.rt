//! Readers of the lines that a row may have any number of.

ghost use Rattle.std.specs.Prelude.{◌≡◌, ◌≢◌, IfSome, IfNone};
ghost use Rattle.hold_parts.specs.declared.parts.Item.{Item};
ghost use Rattle.payload.specs.declared.figures.ZoneCount.{ZoneCount};
ghost use Rattle.trim.specs.Limits.{HasFewPassengers};
ghost use Rattle.trim.specs.declared.figures.LooseFigure.{LooseFigure};
ghost use Rattle.flight_state.specs.declared.change.Lmc.{Lmc};
ghost use Rattle.flight_row.specs.RowText.{zone_line, container_line, loose_line, change_line};
ghost use Rattle.flight_row.specs.Spelled.{IsSpelledContainer, IsSpelledLoad, IsSpelledChange};

use crate::single_lines::MOST_MASS;
use flight_state::Lmc;
use hold_limits::Item;
use mass_units::Kg;
use payload::ZoneCount;
use text_lines::{IdWord, Last, NameWord, NumberWord, SignedWord, Then, read_fields};
use trim::LooseFigure;

/// The most persons of a kind in a zone, and the most pieces of a loose load.
const MOST_COUNT: u32 = 999;

/// The most zones.
const MOST_ZONES: u32 = 16;

/// The count of a line `zone ADULTS CHILDREN INFANTS`.
pub fn read_zone(line: &[u8]) -> Option<ZoneCount>
    ensures found { IfSome result (λ count. HasFewPassengers count × (line.now ≡ zone_line count)) }
    ensures none { IfNone result ((count : ZoneCount) → HasFewPassengers count → line.now ≢ zone_line count) }
{
    let number = NumberWord {
        least: 0,
        most: MOST_COUNT,
    };
    let fields = Then(number, Then(number, Last(number)));
    let (adults, (children, infants)) = read_fields(b"zone ", &fields, line)?;
    Some(ZoneCount {
        adults: adults as u16,
        children: children as u16,
        infants: infants as u16,
    })
}

/// The container of a line `container ID MASS`.
pub fn read_container(line: &[u8]) -> Option<Item>
    ensures found { IfSome result (λ item. IsSpelledContainer item × (line.now ≡ container_line item)) }
    ensures none { IfNone result ((item : Item) → IsSpelledContainer item → line.now ≢ container_line item) }
{
    let mass = NumberWord {
        least: 0,
        most: MOST_MASS,
    };
    let (id, mass) = read_fields(b"container ", &Then(IdWord, Last(mass)), line)?;
    Some(Item { id, mass: Kg(mass) })
}

/// The loose load of a line `loose NAME MASS PIECES`.
pub fn read_load(line: &[u8]) -> Option<LooseFigure>
    ensures found { IfSome result (λ load. IsSpelledLoad load × (line.now ≡ loose_line load)) }
    ensures none { IfNone result ((load : LooseFigure) → IsSpelledLoad load → line.now ≢ loose_line load) }
{
    let mass = NumberWord {
        least: 0,
        most: MOST_MASS,
    };
    let pieces = NumberWord {
        least: 0,
        most: MOST_COUNT,
    };
    let fields = Then(NameWord, Then(mass, Last(pieces)));
    let (position, (mass, pieces)) = read_fields(b"loose ", &fields, line)?;
    Some(LooseFigure {
        position,
        mass: Kg(mass),
        pieces: pieces as u16,
    })
}

/// The late change of a line `lmc zone ZONE ADULTS CHILDREN INFANTS` or `lmc bulk NAME MASS PIECES`.
pub fn read_change(line: &[u8]) -> Option<Lmc>
    ensures found { IfSome result (λ change. IsSpelledChange change × (line.now ≡ change_line change)) }
    ensures none { IfNone result ((change : Lmc) → IsSpelledChange change → line.now ≢ change_line change) }
{
    let number = SignedWord { most: MOST_COUNT };
    let zone = NumberWord {
        least: 1,
        most: MOST_ZONES,
    };
    let fields = Then(zone, Then(number, Then(number, Last(number))));
    if let Some((zone, (adults, (children, infants)))) = read_fields(b"lmc zone ", &fields, line) {
        return Some(Lmc::Cabin {
            zone: zone as u8,
            adults: adults as i16,
            children: children as i16,
            infants: infants as i16,
        });
    }
    let mass = SignedWord { most: MOST_MASS };
    let fields = Then(NameWord, Then(mass, Last(number)));
    let (position, (mass, pieces)) = read_fields(b"lmc bulk ", &fields, line)?;
    Some(Lmc::Loose {
        position,
        mass,
        pieces: pieces as i16,
    })
}
