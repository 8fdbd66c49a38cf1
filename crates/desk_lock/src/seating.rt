//! The desks of a room are seated when it starts, and come back when it closes.

ghost use Rattle.std.specs.Prelude.{◌≡◌, ◌<◌, ◌≤◌, ◌^◌, [], All, IfOk, vec_len, vec_capacity, map};
ghost use Rattle.std.specs.Arc.{arc_value};
ghost use Rattle.desk_lock.specs.declared.views.Stage.TheVariants.{Vacant as vacant, Working as working};
ghost use Rattle.desk_lock.specs.Steps.{room_seat, IsSeatOf};
ghost use Rattle.desk_lock.specs.Views.{card_of};
ghost use Rattle.desk_lock.specs.Desks.{origin, room_of};
ghost use Rattle.desk_lock.specs.Rooms.{AreNew, AreAllDesks, StayAllDesks, Closes};

use crate::board::{Board, BoardSeat};
use crate::desk::Desk;
use crate::desk_steps::take;
use crate::machine::Machine;
use crate::room_steps::{add, collect, shut};
use crate::views::Origin;
use atomic_table::Table;
use std::alloc::{AllocError, Global};
use std::sync::Arc;

/// All memory that a room takes, before the machine moves in.
pub(crate) struct Prepared<M: Machine> {
    pub(crate) board: Arc<Board<M>>,
    pub(crate) seat: BoardSeat<M>,
    /// The owners of the board for the desks.
    pub(crate) owners: Vec<Arc<Board<M>>>,
    /// An empty list with room for the desks.
    pub(crate) desks: Vec<Desk<M>>,
}

/// Takes the memory for a room with so many desks.
pub(crate) fn prepare<M: Machine>(
    alloc: Global,
    origin: &Origin<M>,
    desks: u32,
) -> Result<Prepared<M>, AllocError>
    requires small { origin.now.capacity < 2 ^ 63 }
    ensures origin { IfOk result (λ p. (arc_value p.board).shared.key ≡ origin.now) }
    ensures seat { IfOk result (λ p. IsSeatOf (arc_value p.board).shared.table_id p.seat.table_id) }
    ensures vacant { IfOk result (λ p. p.seat.me ≡ room_seat origin.now 0 vacant [] []) }
    ensures count { IfOk result (λ p. vec_len p.owners ≡ desks) }
    ensures owners { IfOk result (λ p. All (λ owner. arc_value owner ≡ arc_value p.board) p.owners.items) }
    ensures desks { IfOk result (λ p. (p.desks.items ≡ []) × (desks ≤ vec_capacity p.desks)) }
{
    let (table, seat) = Table::vacant(alloc, &[0, 0], 1, origin)?;
    let board = Arc::new(alloc, table)?;
    let owners = owners(alloc, &board, desks)?;
    let desks = Vec::with_capacity(alloc, desks as usize)?;
    Ok(Prepared {
        board,
        seat,
        owners,
        desks,
    })
}

/// As many further owners of the board.
fn owners<M: Machine>(
    alloc: Global,
    board: &Arc<Board<M>>,
    count: u32,
) -> Result<Vec<Arc<Board<M>>>, AllocError>
    ensures count { IfOk result (λ owners. vec_len owners ≡ count) }
    ensures board { IfOk result (λ owners. All (λ owner. arc_value owner ≡ arc_value board.now) owners.items) }
{
    let mut owners = Vec::with_capacity(alloc, count as usize)?;
    for _ in 0..count {
        let owner = Arc::try_clone(board)?;
        owners.push_reserved(owner);
    }
    Ok(owners)
}

/// Makes the desks, one for each owner of the board, in a list that has room for them.
pub(crate) fn seat_all<M: Machine>(
    board: &Board<M>,
    seat: &mut BoardSeat<M>,
    mut owners: Vec<Arc<Board<M>>>,
    mut desks: Vec<Desk<M>>,
    count: u32,
    capacity: u64,
) -> Vec<Desk<M>>
    requires board { IsSeatOf board.now.shared.table_id seat.old.table_id }
    requires working { seat.old.me ≡ room_seat board.now.shared.key 0 working [] [] }
    requires owners { All (λ owner. arc_value owner ≡ board.now) owners.items }
    requires count { (vec_len owners ≡ count) × (count ≤ 8) }
    requires desks { (desks.items ≡ []) × (count ≤ vec_capacity desks) }
    requires capacity { capacity ≡ board.now.shared.key.capacity }
    ensures same { seat.new.table_id ≡ seat.old.table_id }
    ensures working { seat.new.me ≡ room_seat board.now.shared.key count working [] [] }
    ensures count { vec_len result ≡ count }
    ensures new { AreNew M.history board.now.shared.key board.now.shared.table_id result.items }
    ensures all { AreAllDesks board.now.shared.key board.now.shared.table_id count result.items }
    ensures stay { StayAllDesks board.now.shared.key board.now.shared.table_id count result.items }
{
    let mut place: u32 = 0;
    while let Some(owner) = owners.pop() {
        let other = add(board, seat, place);
        desks.push_reserved(Desk {
            board: owner,
            seat: other,
            place,
            desks: count,
            capacity,
            ticket: None,
        });
        place += 1;
    }
    owners.destroy_empty();
    desks
}

/// Collects the cards of the desks that came back.
fn collect_all<M: Machine>(
    board: &Board<M>,
    seat: &mut BoardSeat<M>,
    mut desks: Vec<Desk<M>>,
    count: u32,
)
    requires board { IsSeatOf board.now.shared.table_id seat.old.table_id }
    requires working { seat.old.me ≡ room_seat board.now.shared.key count working [] [] }
    requires mine { All (λ d. (origin d ≡ board.now.shared.key) × (room_of d ≡ seat.old.table_id)) desks.items }
    ensures same { seat.new.table_id ≡ seat.old.table_id }
    ensures working { seat.new.me
        ≡ room_seat board.now.shared.key count working (map (λ d. (d.place, card_of d.seat.me.0)) desks.items) [] }
{
    while let Some(desk) = desks.pop() {
        let Desk {
            seat: other,
            place,
            ..
        } = desk;
        collect(board, seat, other, count, place);
    }
    desks.destroy_empty();
}

/// Takes the machine out of the slot for good, when all desks came back.
pub(crate) fn recover<M: Machine>(
    board: &Board<M>,
    seat: &mut BoardSeat<M>,
    desks: Vec<Desk<M>>,
    count: u32,
) -> M
    requires board { IsSeatOf board.now.shared.table_id seat.old.table_id }
    requires working { seat.old.me ≡ room_seat board.now.shared.key count working [] [] }
    requires all { AreAllDesks board.now.shared.key seat.old.table_id count desks.items }
    ensures setting { M.setting result ≡ M.setting board.now.shared.key.machine }
    ensures follows { M.follows board.now.shared.key.machine result }
    ensures history { Closes M.history M.desk_of board.now.shared.key count desks.items (M.history result) }
{
    collect_all(board, seat, desks, count);
    shut(board, seat, count);
    take(board, seat)
}
