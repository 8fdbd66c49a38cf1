//! The third line of a load message: what is on board.

ghost use Rattle.std.specs.Prelude.{◌≡◌, ℕ, ◌+◌, ◌↔◌, ◌++◌, ◌∷◌, List, true, codes, IsTrue, IfOk, IfSome, IsSomeAnd};
ghost use Rattle.mass_units.specs.Spelling.{number_text, IsNumber};
ghost use Rattle.flight_state.specs.Spellings.{is_station};
ghost use Rattle.telex.specs.Elements.{said};
ghost use Rattle.telex.specs.Parts.{dot};
ghost use Rattle.telex.specs.declared.reading.Part.{Part};
ghost use Rattle.ldm_cpm.specs.Messages.{OnBoard, board_elements, IsSpelledBoard};
ghost use Rattle.ldm_cpm.specs.Reading.{board_said};

use crate::loads::{push_loads, total};
use crate::messages::Loads;
use crate::numbers::number_after;
use base_words::NoMemory;
use last_minute::Station;
use mass_units::read_number;
use std::alloc::Global;
use telex::{DOT, Part, SLASH};

/// What is on board for a destination.
#[derive(Debug, Drop)]
pub struct Board<'a> {
    pub destination: Part<'a>,
    pub adults: u32,
    pub children: u32,
    pub infants: u32,
    pub loads: Loads,
}

/// The destination that the first part of the line spells after its hyphen.
fn read_destination<'a>(part: &Part<'a>) -> Option<Part<'a>>
    ensures some { IfSome result (λ to. (part.now.before ≡ 0) × (part.now.text.now ≡ codes "-" ++ to.text.now)
        × (is_station to.text.now ≡ true) × (to.before ≡ 0) × (to.at ≡ part.now.at + 1)) }
    ensures read_back { (text : List ℕ) → is_station text ≡ true → part.now.before ≡ 0
        → part.now.text.now ≡ codes "-" ++ text → IsSomeAnd result (λ to. to.text.now ≡ text) }
{
    let destination = part.after_mark(b'-')?;
    if part.before == 0 && Station::read(destination.text).is_some() {
        Some(destination)
    } else {
        None
    }
}

/// Whether the part spells the mass of the loads after a dot and `T`.
fn is_total(part: &Part<'_>, mass: u128) -> bool
    ensures { IsTrue result ↔ ((part.now.before ≡ dot) × IsNumber mass
        × (part.now.text.now ≡ codes "T" ++ number_text mass)) }
{
    match part.text {
        [b'T', digits @ ..] => {
            part.before == DOT && read_number(digits).is_some_and(|n| u128::from(n) == mass)
        }
        _ => false,
    }
}

/// Whether the part spells how many adults and children there are.
fn are_seats(part: &Part<'_>, adults: u32, children: u32) -> bool
    ensures { IsTrue result ↔ (IsNumber (adults + children)
        × (part.now.text.now ≡ number_text (adults + children))) }
{
    read_number(part.text).is_some_and(|n| u64::from(n) == u64::from(adults) + u64::from(children))
}

/// What the parts say is on board. None exactly where they say no such thing.
pub fn read_board<'a>(alloc: Global, parts: &[Part<'a>]) -> Result<Option<Board<'a>>, NoMemory>
    ensures some { IfOk result (λ r. IfSome r (λ b. IsSpelledBoard (board_said b)
        × (said parts.now ≡ board_elements (board_said b)))) }
    ensures destination { IfOk result (λ r. IfSome r (λ b. (b.destination.before ≡ 0)
        × ((one : Part) (more : List Part) → parts.now ≡ one ∷ more → b.destination.at ≡ one.at + 1))) }
    ensures read_back { IfOk result (λ r. (m : OnBoard) → IsSpelledBoard m → said parts.now ≡ board_elements m
        → IsSomeAnd r (λ b. board_said b ≡ m)) }
{
    let [destination, adults, children, infants, mass, rest @ ..] = parts else {
        return Ok(None);
    };
    let (Some(destination), Some(adults), Some(children), Some(infants)) = (
        read_destination(destination),
        number_after(DOT, adults),
        number_after(SLASH, children),
        number_after(SLASH, infants),
    ) else {
        return Ok(None);
    };
    let mut loads = Vec::new(alloc);
    let Some(seats) = push_loads(&mut loads, 0, rest)? else {
        return Ok(None);
    };
    if !is_total(mass, total(loads.as_slice())) || !are_seats(&seats, adults, children) {
        return Ok(None);
    }
    Ok(Some(Board {
        destination,
        adults,
        children,
        infants,
        loads: Loads::from(loads),
    }))
}
