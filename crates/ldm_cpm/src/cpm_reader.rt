//! The reader of container messages.

ghost use Rattle.std.specs.Prelude.{◌≡◌, ◌≤◌, None, List, [], ◌∷◌, ◌++◌, length, map, bytes_eq, codes, IfOk, IfErr, IfSome, IsSomeAnd, IsTrue, MatchResult};
ghost use Rattle.std.specs.Bool.{OnTrue};
ghost use Rattle.std.specs.List.{list_any};
ghost use Rattle.telex.specs.Elements.{line_text};
ghost use Rattle.telex.specs.Items.{placed_line};
ghost use Rattle.telex.specs.Lines.{PlacedLine, lines_of};
ghost use Rattle.ldm_cpm.specs.Messages.{Heading, Placing, HoldMessage, heading_elements, IsSpelledHeading, place_elements, place_lines, cpm_lines, AreSpelledPlacings, IsSpelledCpm, IsCpm};
ghost use Rattle.ldm_cpm.specs.Reading.{heading_of, HeadStands, placing_said, cpm_said, texts, PlaceStands, PlacesStand, CpmStands, AreCpmLines, IsFaultOf, IsRefused};
ghost use Rattle.ldm_cpm.specs.declared.messages.CpmPlace.{CpmPlace};
ghost use Rattle.ldm_cpm.specs.declared.fault.MsgFault.{MsgFault};

use crate::fault::MsgFault;
use crate::heads::read_head;
use crate::messages::{Cpm, CpmPlace, CpmPlaces, Head};
use crate::places::read_place;
use crate::titles::next_title;
use base_words::NoMemory;
use std::alloc::Global;
use telex::{Line, Lines, cut};

/// The most positions of a hold.
const MOST_PLACES: usize = 64;

/// Whether one of the positions has the name.
fn is_named(places: &[CpmPlace<'_>], name: &[u8]) -> bool
    ensures { result ≡ list_any (λ place. bytes_eq place.name.text.now name.now) places.now }
{
    places.iter().any(|place| place.name.text == name)
}

/// Adds the position that the line spells. False where it spells none, or none that may follow these.
fn push_place<'a>(
    alloc: Global,
    places: &mut Vec<CpmPlace<'a>>,
    line: &Line<'a>,
) -> Result<bool, NoMemory>
    ensures added { IfOk result (λ yes. OnTrue yes ((place : CpmPlace)
        × (places.new.items ≡ places.old.items ++ place ∷ [])
        × (line.now.text.now ≡ line_text (place_elements (placing_said place)))
        × PlaceStands (placed_line line.now) place)) }
    ensures spelled { AreSpelledPlacings (map placing_said places.old.items)
        → IfOk result (λ yes. OnTrue yes (AreSpelledPlacings (map placing_said places.new.items))) }
    ensures read_back { IfOk result (λ yes. (p : Placing) → line.now.text.now ≡ line_text (place_elements p)
        → AreSpelledPlacings (map placing_said places.old.items ++ p ∷ [])
        → IsTrue yes × (map placing_said places.new.items ≡ map placing_said places.old.items ++ p ∷ [])) }
{
    if places.len() >= MOST_PLACES {
        return Ok(false);
    }
    let Some(place) = read_place(line.parts(alloc)?.as_slice()) else {
        return Ok(false);
    };
    if is_named(places.as_slice(), place.name.text) {
        return Ok(false);
    }
    places.push(place)?;
    Ok(true)
}

/// The positions that the lines spell, at least one and at most 64, no two of which have one name.
fn read_places<'a>(alloc: Global, lines: Lines<'a>) -> Result<Vec<CpmPlace<'a>>, MsgFault>
    ensures spelled { IfOk result (λ ps. AreSpelledPlacings (map placing_said ps.items) × (1 ≤ length ps.items)) }
    ensures said { IfOk result (λ ps. texts lines.entry ≡ place_lines (map placing_said ps.items)) }
    ensures stands { IfOk result (λ ps. PlacesStand lines.entry ps.items) }
    ensures refused { (h : Heading) → IsSpelledHeading h → IfErr result
        (IsFaultOf AreCpmLines (codes "CPM" ∷ line_text (heading_elements h) ∷ texts lines.entry)) }
    ensures read_back { (ps : List Placing) → AreSpelledPlacings ps → 1 ≤ length ps → texts lines.entry ≡ place_lines ps
        → MatchResult result (λ got. map placing_said got.items ≡ ps) (λ fault. fault ≡ MsgFault.NoMemory) }
{
    let mut places = Vec::new(alloc);
    for line in lines {
        let number = places.len() + 3;
        if !push_place(alloc, &mut places, &line)? {
            return Err(MsgFault::Line(number));
        }
    }
    if places.is_empty() {
        return Err(MsgFault::Line(3));
    }
    Ok(places)
}

/// The head that the next line spells. None where it spells none, and where there is no next line.
fn next_head<'a>(alloc: Global, lines: &mut Lines<'a>) -> Result<Option<Head<'a>>, NoMemory>
    ensures found { IfOk result (λ r. IfSome r (λ head. (line : PlacedLine) × (lines.old ≡ line ∷ lines.new)
        × (line.text ≡ line_text (heading_elements (heading_of head))) × HeadStands line head)) }
    ensures spelled { IfOk result (λ r. IfSome r (λ head. IsSpelledHeading (heading_of head))) }
    ensures alone { IfOk result (λ r. IfSome r (λ head. head.crew ≡ None)) }
    ensures read_back { IfOk result (λ r. (line : PlacedLine) (more : List PlacedLine) → lines.old ≡ line ∷ more
        → (h : Heading) → IsSpelledHeading h → line.text ≡ line_text (heading_elements h)
        → IsSomeAnd r (λ head. heading_of head ≡ h)) }
{
    match lines.next() {
        Some(line) => Ok(read_head(line.parts(alloc)?.as_slice())),
        None => Ok(None),
    }
}

/// The container message that the lines are.
fn read_lines<'a>(alloc: Global, mut lines: Lines<'a>) -> Result<Cpm<'a>, MsgFault>
    ensures spelled { IfOk result (λ m. IsSpelledCpm (cpm_said m)) }
    ensures said { IfOk result (λ m. texts lines.entry ≡ cpm_lines (cpm_said m)) }
    ensures stands { IfOk result (CpmStands lines.entry) }
    ensures crew { IfOk result (λ m. m.head.crew ≡ None) }
    ensures refused { IfErr result (IsFaultOf AreCpmLines (texts lines.entry)) }
    ensures read_back { (m : HoldMessage) → IsSpelledCpm m → texts lines.entry ≡ cpm_lines m
        → MatchResult result (λ got. cpm_said got ≡ m) (λ fault. fault ≡ MsgFault.NoMemory) }
{
    if !next_title(b"CPM", &mut lines) {
        return Err(MsgFault::Line(1));
    }
    let Some(head) = next_head(alloc, &mut lines)? else {
        return Err(MsgFault::Line(2));
    };
    let places = read_places(alloc, lines)?;
    Ok(Cpm {
        head,
        places: CpmPlaces::from(places),
    })
}

/// Reads the container message that the text spells. The parts borrow from the text.
pub fn read_cpm<'a>(alloc: Global, text: &'a [u8]) -> Result<Cpm<'a>, MsgFault>
    ensures read { IfOk result (λ m. IsCpm text.now (cpm_said m)) }
    ensures stands { IfOk result (CpmStands (lines_of text.now)) }
    ensures crew { IfOk result (λ m. m.head.crew ≡ None) }
    ensures refused { IfErr result (IsRefused AreCpmLines text.now) }
    ensures read_back { (m : HoldMessage) → IsCpm text.now m
        → MatchResult result (λ got. cpm_said got ≡ m) (λ fault. fault ≡ MsgFault.NoMemory) }
{
    let message = cut(text)?;
    read_lines(alloc, message.lines())
}
