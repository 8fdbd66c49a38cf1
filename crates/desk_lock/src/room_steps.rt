//! The steps of a room: it puts the machine into the slot, makes its desks, collects their cards, and takes the slot
//! again.

ghost use Rattle.std.specs.Prelude.{◌≡◌, ◌<◌, ◌≤◌, ◌+◌, Option, [], ◌∷◌, Some, None, false};
ghost use Rattle.desk_lock.specs.Views.{card, card_of, collected_in};
ghost use Rattle.desk_lock.specs.declared.views.Stage.TheVariants.{Vacant as vacant, Out as out, Working as working};
ghost use Rattle.desk_lock.specs.Rule.{IsHeld};
ghost use Rattle.desk_lock.specs.Steps.{desk_seat, room_seat, IsSeatOf, Covers, AreIdle, Ends};

use crate::board::{Board, BoardSeat, Clear, Collect, NextDesk, Open, Shut, TICKETS};
use crate::desk_steps::give;
use crate::machine::Machine;

/// Takes the empty slot.
fn clear<M: Machine>(board: &Board<M>, seat: &mut BoardSeat<M>)
    requires board { IsSeatOf board.now.shared.table_id seat.old.table_id }
    requires vacant { seat.old.me ≡ room_seat board.now.shared.key 0 vacant [] [] }
    ensures same { (seat.new.table_id ≡ seat.old.table_id) × (seat.new.id ≡ seat.old.id) }
    ensures out { (x : Option M) × (seat.new.me ≡ room_seat board.now.shared.key 0 out [] ((0, x) ∷ [])) }
{
    board.shared.load::<Clear>(seat, TICKETS);
}

/// Gives the slot to the desks, with the machine in it.
fn open<M: Machine>(board: &Board<M>, seat: &mut BoardSeat<M>)
    requires board { IsSeatOf board.now.shared.table_id seat.old.table_id }
    requires held { (m : M) × (seat.old.me ≡ room_seat board.now.shared.key 0 out [] ((0, Some m) ∷ []))
        × IsHeld M.setting M.follows M.history M.spare M.desk_of
        board.now.shared.key 0 (M.history board.now.shared.key.machine) m }
    ensures same { (seat.new.table_id ≡ seat.old.table_id) × (seat.new.id ≡ seat.old.id) }
    ensures working { seat.new.me ≡ room_seat board.now.shared.key 0 working [] [] }
{
    board.shared.load::<Open>(seat, TICKETS);
}

/// Moves the machine into the slot.
pub(crate) fn install<M: Machine>(board: &Board<M>, seat: &mut BoardSeat<M>, machine: M)
    requires board { IsSeatOf board.now.shared.table_id seat.old.table_id }
    requires vacant { seat.old.me ≡ room_seat board.now.shared.key 0 vacant [] [] }
    requires machine { board.now.shared.key.machine ≡ machine }
    requires spare { board.now.shared.key.capacity ≤ M.spare machine }
    ensures same { (seat.new.table_id ≡ seat.old.table_id) × (seat.new.id ≡ seat.old.id) }
    ensures working { seat.new.me ≡ room_seat board.now.shared.key 0 working [] [] }
{
    clear(board, seat);
    give(board, seat, machine);
    open(board, seat);
}

/// Makes the seat of one more desk, beside the `made` that there are.
pub(crate) fn add<M: Machine>(board: &Board<M>, seat: &mut BoardSeat<M>, made: u32) -> BoardSeat<M>
    requires board { IsSeatOf board.now.shared.table_id seat.old.table_id }
    requires working { seat.old.me ≡ room_seat board.now.shared.key made working [] [] }
    requires few { made < 8 }
    ensures same { (seat.new.table_id ≡ seat.old.table_id) × (result.table_id ≡ seat.old.table_id) }
    ensures working { seat.new.me ≡ room_seat board.now.shared.key (made + 1) working [] [] }
    ensures desk { result.me
        ≡ desk_seat board.now.shared.key made (card None None false (M.history board.now.shared.key.machine)) [] }
{
    board.shared.split_seat::<NextDesk<M>>(seat)
}

/// Collects the card of the desk at the place, which came back with its seat.
pub(crate) fn collect<M: Machine>(
    board: &Board<M>,
    seat: &mut BoardSeat<M>,
    other: BoardSeat<M>,
    desks: u32,
    place: u32,
)
    requires board { IsSeatOf board.now.shared.table_id seat.old.table_id }
    requires mine { other.table_id ≡ seat.old.table_id }
    requires working { seat.old.me ≡ room_seat board.now.shared.key desks working (collected_in seat.old.me.0) [] }
    requires desk { other.me ≡ desk_seat board.now.shared.key place (card_of other.me.0) [] }
    ensures same { seat.new.table_id ≡ seat.old.table_id }
    ensures working { seat.new.me
        ≡ room_seat board.now.shared.key desks working
        ((place, card_of other.me.0) ∷ collected_in seat.old.me.0) [] }
{
    board.shared.join_seat::<Collect>(seat, other);
}

/// Takes the slot with the machine, when all desks came back idle. Answers how many tickets were drawn.
pub(crate) fn shut<M: Machine>(board: &Board<M>, seat: &mut BoardSeat<M>, desks: u32) -> u64
    requires board { IsSeatOf board.now.shared.table_id seat.old.table_id }
    requires working { seat.old.me ≡ room_seat board.now.shared.key desks working (collected_in seat.old.me.0) [] }
    requires all { Covers desks (collected_in seat.old.me.0) }
    requires idle { AreIdle board.now.shared.key.capacity (collected_in seat.old.me.0) }
    ensures same { seat.new.table_id ≡ seat.old.table_id }
    ensures machine { (m : M) × (seat.new.me.1 ≡ (0, Some m) ∷ [])
        × Ends M.setting M.follows M.history M.desk_of board.now.shared.key desks result (collected_in seat.old.me.0) m }
{
    board.shared.load::<Shut<M>>(seat, TICKETS)
}
