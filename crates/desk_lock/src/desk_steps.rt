//! The steps of a desk: it draws, waits for its turn, takes it, and wakes the others.

ghost use Rattle.std.specs.Prelude.{◌≡◌, ◌==◌, ◌<◌, Option, [], ◌∷◌, Some, None, true, false};
ghost use Rattle.std.specs.Bool.{MatchBool};
ghost use Rattle.desk_lock.specs.Views.{card, card_of, last_of, seen_of};
ghost use Rattle.desk_lock.specs.Steps.{HasTurn, GetsTurn, IsTurnDone, HasServed, desk_seat, IsSeatOf};

use crate::board::{Advance, Board, BoardSeat, Count, Draw, Look, MACHINE, SERVING, TICKETS};
use crate::machine::Machine;
use std::alloc::Global;
use std::sync::Wait;
use std::{hint, thread};

/// How often a desk looks before it draws, and again before it parks. A turn takes a few microseconds, and to park and
/// be woken takes longer.
const LOOKS: u32 = 2_000;

/// How often it looks before it lets another thread have the processor.
const LOOKS_IN_A_ROW: u32 = 100;

/// Pauses between two looks.
fn pause(looks: u32) {
    if looks % LOOKS_IN_A_ROW == LOOKS_IN_A_ROW - 1 {
        thread::yield_now();
    } else {
        hint::spin_loop();
    }
}

/// How many tickets are drawn whose turn has not ended.
fn waiting<M: Machine>(board: &Board<M>, seat: &mut BoardSeat<M>) -> u64
    requires board { IsSeatOf board.now.shared.table_id seat.old.table_id }
    ensures same { (seat.new.table_id ≡ seat.old.table_id) × (seat.new.id ≡ seat.old.id) }
    ensures unchanged { seat.new.me ≡ seat.old.me }
{
    let served = board.shared.load::<Count>(seat, SERVING);
    let drawn = board.shared.load::<Count>(seat, TICKETS);
    drawn.saturating_sub(served)
}

/// Waits a while for the turns of others, with no ticket in hand: a desk that loses the processor with a ticket in hand
/// holds up all desks behind it.
pub(crate) fn stand_back<M: Machine>(board: &Board<M>, seat: &mut BoardSeat<M>)
    requires board { IsSeatOf board.now.shared.table_id seat.old.table_id }
    ensures same { (seat.new.table_id ≡ seat.old.table_id) × (seat.new.id ≡ seat.old.id) }
    ensures unchanged { seat.new.me ≡ seat.old.me }
{
    for looks in 0..LOOKS {
        if waiting(board, seat) == 0 {
            return;
        }
        pause(looks);
    }
}

/// Draws the next ticket.
pub(crate) fn draw<M: Machine>(board: &Board<M>, seat: &mut BoardSeat<M>, place: u32) -> u64
    requires board { IsSeatOf board.now.shared.table_id seat.old.table_id }
    requires idle { seat.old.me
        ≡ desk_seat board.now.shared.key place (card None (last_of seat.old.me.0) false (seen_of seat.old.me.0)) [] }
    ensures same { (seat.new.table_id ≡ seat.old.table_id) × (seat.new.id ≡ seat.old.id) }
    ensures drawn { seat.new.me
        ≡ desk_seat board.now.shared.key place (card (Some result) (Some result) false (seen_of seat.old.me.0)) [] }
{
    board.shared.fetch_add::<Draw>(seat, TICKETS, 1)
}

/// Looks once which ticket is served.
pub(crate) fn look<M: Machine>(
    board: &Board<M>,
    seat: &mut BoardSeat<M>,
    place: u32,
    ticket: u64,
) -> u64
    requires board { IsSeatOf board.now.shared.table_id seat.old.table_id }
    requires drawn { seat.old.me
        ≡ desk_seat board.now.shared.key place (card (Some ticket) (Some ticket) false (seen_of seat.old.me.0)) [] }
    requires below { ticket < board.now.shared.key.capacity }
    ensures same { (seat.new.table_id ≡ seat.old.table_id) × (seat.new.id ≡ seat.old.id) }
    ensures turn { MatchBool (result == ticket)
        (GetsTurn M.setting M.follows M.history M.spare M.desk_of
        board.now.shared.key place ticket (card_of seat.old.me.0) [] seat.new.me)
        (seat.new.me ≡ seat.old.me) }
{
    board.shared.load::<Look<M>>(seat, SERVING)
}

/// Looks some times whether the ticket is served, since most turns are short.
fn spin<M: Machine>(board: &Board<M>, seat: &mut BoardSeat<M>, place: u32, ticket: u64) -> bool
    requires board { IsSeatOf board.now.shared.table_id seat.old.table_id }
    requires drawn { seat.old.me
        ≡ desk_seat board.now.shared.key place (card (Some ticket) (Some ticket) false (seen_of seat.old.me.0)) [] }
    requires below { ticket < board.now.shared.key.capacity }
    ensures same { (seat.new.table_id ≡ seat.old.table_id) × (seat.new.id ≡ seat.old.id) }
    ensures turn { MatchBool result
        (GetsTurn M.setting M.follows M.history M.spare M.desk_of
        board.now.shared.key place ticket (card_of seat.old.me.0) [] seat.new.me)
        (seat.new.me ≡ seat.old.me) }
{
    for looks in 0..LOOKS {
        if look(board, seat, place, ticket) == ticket {
            return true;
        }
        pause(looks);
    }
    false
}

/// Waits until the ticket is served: looks, and parks until a desk that ends its turn wakes it.
pub(crate) fn wait<M: Machine, R: Wait>(
    rt: &R,
    board: &Board<M>,
    seat: &mut BoardSeat<M>,
    place: u32,
    ticket: u64,
)
    requires board { IsSeatOf board.now.shared.table_id seat.old.table_id }
    requires drawn { seat.old.me
        ≡ desk_seat board.now.shared.key place (card (Some ticket) (Some ticket) false (seen_of seat.old.me.0)) [] }
    requires below { ticket < board.now.shared.key.capacity }
    ensures same { (seat.new.table_id ≡ seat.old.table_id) × (seat.new.id ≡ seat.old.id) }
    ensures turn { GetsTurn M.setting M.follows M.history M.spare M.desk_of
        board.now.shared.key place ticket (card_of seat.old.me.0) [] seat.new.me }
{
    if spin(board, seat, place, ticket) {
        return;
    }
    for _ in rt.forever() {
        let serving = look(board, seat, place, ticket);
        if serving == ticket {
            return;
        }
        board.shared.park(rt, SERVING, (serving % (1 << 32)) as u32);
    }
    unreachable!()
}

/// Takes the machine out of the slot.
pub(crate) fn take<M: Machine>(board: &Board<M>, seat: &mut BoardSeat<M>) -> M
    requires board { IsSeatOf board.now.shared.table_id seat.old.table_id }
    requires held { (m : M) × (seat.old.me.1 ≡ (0, Some m) ∷ []) }
    ensures same { (seat.new.table_id ≡ seat.old.table_id) × (seat.new.id ≡ seat.old.id) }
    ensures machine { seat.old.me.1 ≡ (0, Some result) ∷ [] }
    ensures out { seat.new.me ≡ (seat.old.me.0, (0, None) ∷ []) }
{
    match board.shared.exchange(seat, MACHINE, None) {
        Some(machine) => machine,
        None => unreachable!(),
    }
}

/// Gives the machine back into the slot.
pub(crate) fn give<M: Machine>(board: &Board<M>, seat: &mut BoardSeat<M>, machine: M)
    requires board { IsSeatOf board.now.shared.table_id seat.old.table_id }
    requires out { (x : Option M) × (seat.old.me.1 ≡ (0, x) ∷ []) }
    ensures same { (seat.new.table_id ≡ seat.old.table_id) × (seat.new.id ≡ seat.old.id) }
    ensures held { seat.new.me ≡ (seat.old.me.0, (0, Some machine) ∷ []) }
{
    board.shared.exchange(seat, MACHINE, Some(machine));
}

/// Ends the turn: the slot is at home again, and the next ticket is served.
pub(crate) fn advance<M: Machine>(
    board: &Board<M>,
    seat: &mut BoardSeat<M>,
    place: u32,
    ticket: u64,
)
    requires board { IsSeatOf board.now.shared.table_id seat.old.table_id }
    requires done { IsTurnDone M.setting M.follows M.history M.spare M.desk_of
        board.now.shared.key place ticket seat.old.me }
    ensures same { (seat.new.table_id ≡ seat.old.table_id) × (seat.new.id ≡ seat.old.id) }
    ensures idle { (m : M) → seat.old.me.1 ≡ (0, Some m) ∷ []
        → seat.new.me ≡ desk_seat board.now.shared.key place (card None (Some ticket) false (M.history m)) [] }
{
    board.shared.fetch_add::<Advance<M>>(seat, SERVING, 1);
}

/// Takes one turn of the machine, and ends it.
pub(crate) fn serve<M: Machine>(
    board: &Board<M>,
    seat: &mut BoardSeat<M>,
    place: u32,
    ticket: u64,
    alloc: Global,
    request: M::Request,
) -> M::Reply
    requires board { IsSeatOf board.now.shared.table_id seat.old.table_id }
    requires turn { HasTurn M.setting M.follows M.history M.spare M.desk_of
        board.now.shared.key place ticket [] seat.old.me }
    requires below { ticket < board.now.shared.key.capacity }
    requires desks { place < 8 }
    requires lawful { M.lawful request }
    ensures same { (seat.new.table_id ≡ seat.old.table_id) × (seat.new.id ≡ seat.old.id) }
    ensures served { HasServed M.setting M.history M.desk_of M.fits
        board.now.shared.key place ticket request result seat.old.me.0 seat.new.me }
{
    let mut machine = take(board, seat);
    let reply = machine.turn(alloc, place + 1, request);
    give(board, seat, machine);
    advance(board, seat, place, ticket);
    reply
}

/// Wakes the desks that are parked, so that each of them looks again. There is none where no ticket waits.
pub(crate) fn wake<M: Machine>(board: &Board<M>, seat: &mut BoardSeat<M>)
    requires board { IsSeatOf board.now.shared.table_id seat.old.table_id }
    ensures same { (seat.new.table_id ≡ seat.old.table_id) × (seat.new.id ≡ seat.old.id) }
    ensures unchanged { seat.new.me ≡ seat.old.me }
{
    if waiting(board, seat) > 0 {
        board.shared.wake_all(SERVING);
    }
}
