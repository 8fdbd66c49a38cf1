//! The reader of load messages.

ghost use Rattle.std.specs.Prelude.{◌≡◌, ◌≤◌, ℕ, List, ◌∷◌, IfOk, IfErr, IsSome, IfSome, IsSomeAnd, MatchResult};
ghost use Rattle.telex.specs.Elements.{line_text};
ghost use Rattle.telex.specs.Lines.{PlacedLine, lines_of};
ghost use Rattle.ldm_cpm.specs.Messages.{Heading, OnBoard, LoadMessage, crew_elements, board_elements, ldm_lines, IsSpelledHeading, IsSpelledBoard, IsSpelledLdm, IsLdm};
ghost use Rattle.ldm_cpm.specs.Reading.{heading_of, crew_of, board_said, ldm_said, texts, HeadStands, IsBehindHyphen, LdmStands, AreLdmLines, IsFaultOf, IsRefused};
ghost use Rattle.ldm_cpm.specs.declared.fault.MsgFault.{MsgFault};

use crate::board::{Board, read_board};
use crate::fault::MsgFault;
use crate::heads::read_crew_head;
use crate::messages::{Head, Ldm};
use crate::titles::next_title;
use base_words::NoMemory;
use std::alloc::Global;
use telex::{Lines, cut};

/// The head with its crew that the next line spells. None where it spells none, and where there is no next line.
fn next_head<'a>(alloc: Global, lines: &mut Lines<'a>) -> Result<Option<Head<'a>>, NoMemory>
    ensures found { IfOk result (λ r. IfSome r (λ head. (line : PlacedLine) × (lines.old ≡ line ∷ lines.new)
        × (line.text ≡ line_text (crew_elements (heading_of head) (crew_of head).0 (crew_of head).1))
        × HeadStands line head)) }
    ensures spelled { IfOk result (λ r. IfSome r (λ head. IsSpelledHeading (heading_of head)
        × ((crew_of head).0 ≤ 99) × ((crew_of head).1 ≤ 99))) }
    ensures given { IfOk result (λ r. IfSome r (λ head. IsSome head.crew)) }
    ensures read_back { IfOk result (λ r. (line : PlacedLine) (more : List PlacedLine) → lines.old ≡ line ∷ more
        → (h : Heading) (cockpit cabin : ℕ) → IsSpelledHeading h → cockpit ≤ 99 → cabin ≤ 99
        → line.text ≡ line_text (crew_elements h cockpit cabin)
        → IsSomeAnd r (λ head. (heading_of head ≡ h) × (crew_of head ≡ (cockpit, cabin)))) }
{
    match lines.next() {
        Some(line) => Ok(read_crew_head(line.parts(alloc)?.as_slice())),
        None => Ok(None),
    }
}

/// What the next line says is on board. None where it says no such thing, and where there is no next line.
fn next_board<'a>(alloc: Global, lines: &mut Lines<'a>) -> Result<Option<Board<'a>>, NoMemory>
    ensures found { IfOk result (λ r. IfSome r (λ b. (line : PlacedLine) × (lines.old ≡ line ∷ lines.new)
        × (line.text ≡ line_text (board_elements (board_said b))) × IsBehindHyphen line b.destination)) }
    ensures spelled { IfOk result (λ r. IfSome r (λ b. IsSpelledBoard (board_said b))) }
    ensures read_back { IfOk result (λ r. (line : PlacedLine) (more : List PlacedLine) → lines.old ≡ line ∷ more
        → (m : OnBoard) → IsSpelledBoard m → line.text ≡ line_text (board_elements m)
        → IsSomeAnd r (λ b. board_said b ≡ m)) }
{
    match lines.next() {
        Some(line) => read_board(alloc, line.parts(alloc)?.as_slice()),
        None => Ok(None),
    }
}

/// The load message that the lines are.
fn read_lines<'a>(alloc: Global, mut lines: Lines<'a>) -> Result<Ldm<'a>, MsgFault>
    ensures spelled { IfOk result (λ m. IsSpelledLdm (ldm_said m)) }
    ensures said { IfOk result (λ m. texts lines.entry ≡ ldm_lines (ldm_said m)) }
    ensures stands { IfOk result (LdmStands lines.entry) }
    ensures crew { IfOk result (λ m. IsSome m.head.crew) }
    ensures refused { IfErr result (IsFaultOf AreLdmLines (texts lines.entry)) }
    ensures read_back { (m : LoadMessage) → IsSpelledLdm m → texts lines.entry ≡ ldm_lines m
        → MatchResult result (λ got. ldm_said got ≡ m) (λ fault. fault ≡ MsgFault.NoMemory) }
{
    if !next_title(b"LDM", &mut lines) {
        return Err(MsgFault::Line(1));
    }
    let Some(head) = next_head(alloc, &mut lines)? else {
        return Err(MsgFault::Line(2));
    };
    let Some(board) = next_board(alloc, &mut lines)? else {
        return Err(MsgFault::Line(3));
    };
    match lines.next() {
        Some(_) => Err(MsgFault::Line(4)),
        None => Ok(Ldm {
            head,
            destination: board.destination,
            adults: board.adults,
            children: board.children,
            infants: board.infants,
            loads: board.loads,
        }),
    }
}

/// Reads the load message that the text spells. The parts borrow from the text.
pub fn read_ldm<'a>(alloc: Global, text: &'a [u8]) -> Result<Ldm<'a>, MsgFault>
    ensures read { IfOk result (λ m. IsLdm text.now (ldm_said m)) }
    ensures stands { IfOk result (LdmStands (lines_of text.now)) }
    ensures crew { IfOk result (λ m. IsSome m.head.crew) }
    ensures refused { IfErr result (IsRefused AreLdmLines text.now) }
    ensures read_back { (m : LoadMessage) → IsLdm text.now m
        → MatchResult result (λ got. ldm_said got ≡ m) (λ fault. fault ≡ MsgFault.NoMemory) }
{
    let message = cut(text)?;
    read_lines(alloc, message.lines())
}
