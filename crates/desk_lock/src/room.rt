//! A room: how it starts, and how it closes.

ghost use Rattle.std.specs.Prelude.{◌≡◌, []};
ghost use Rattle.std.specs.Arc.{arc_value};
ghost use Rattle.desk_lock.specs.declared.views.Stage.TheVariants.{Working as working};
ghost use Rattle.desk_lock.specs.Steps.{room_seat, IsSeatOf};

use crate::board::{Board, BoardSeat};
use crate::desk::Desk;
use crate::machine::Machine;
use crate::room_steps::install;
use crate::seating::{Prepared, prepare, recover, seat_all};
use crate::views::Origin;
use std::alloc::Global;
use std::sync::Arc;

/// The system is out of memory. The machine comes back as it was.
#[derive(Drop)]
pub struct StartRefused<M> {
    pub machine: M,
}

/// A machine that desks call by turns. It is kept while they do, and closed with them.
#[derive(Drop)]
pub struct Room<M: Machine> {
    pub(crate) board: Arc<Board<M>>,
    pub(crate) seat: BoardSeat<M>,
    pub(crate) desks: u32,
    ghost of: { IsSeatOf (arc_value board).shared.table_id seat.table_id },
    ghost working: { seat.me ≡ room_seat (arc_value board).shared.key desks working [] [] },
}

impl<M: Machine> Room<M> {
    ghost use Rattle.std.specs.Prelude.{◌<◌, ◌≤◌, IfOk, IfErr, vec_len};
    ghost use Rattle.desk_lock.specs.Rooms.{room_origin, room_id, desk_count, AreNew, AreAllDesksOf, StayAllDesksOf, Closes};

    /// Starts a room over the machine, for at most `capacity` turns, with as many desks as are asked for. The i-th of
    /// them has the number i, counted from 1.
    pub fn start(
        alloc: Global,
        machine: M,
        desks: u32,
        capacity: u64,
    ) -> Result<(Room<M>, Vec<Desk<M>>), StartRefused<M>>
        requires desks { (0 < desks) × (desks ≤ 8) }
        requires spare { capacity ≤ M.spare machine }
        ensures refused { IfErr result (λ r. r.machine ≡ machine) }
        ensures origin { IfOk result (λ r. room_origin r.0 ≡ record { capacity = capacity; machine = machine }) }
        ensures count { IfOk result (λ r. (desk_count r.0 ≡ desks) × (vec_len r.1 ≡ desks)) }
        ensures new { IfOk result (λ r. AreNew M.history (room_origin r.0) (room_id r.0) r.1.items) }
        ensures all { IfOk result (λ r. AreAllDesksOf r.0 r.1.items) }
        ensures stay { IfOk result (λ r. StayAllDesksOf r.0 r.1.items) }
    {
        let origin = Origin { capacity, machine };
        let Prepared {
            board,
            mut seat,
            owners,
            desks: empty,
        } = match prepare(alloc, &origin, desks) {
            Ok(prepared) => prepared,
            Err(_) => {
                return Err(StartRefused {
                    machine: origin.machine,
                });
            }
        };
        install(&board, &mut seat, origin.machine);
        let seated = seat_all(&board, &mut seat, owners, empty, desks, capacity);
        Ok((Room { board, seat, desks }, seated))
    }

    /// Closes the room, all of whose desks came back, in any order. The machine comes back with its whole history.
    pub fn close(self, desks: Vec<Desk<M>>) -> M
        requires { AreAllDesksOf self desks.items }
        ensures setting { M.setting result ≡ M.setting (room_origin self).machine }
        ensures follows { M.follows (room_origin self).machine result }
        ensures history { Closes M.history M.desk_of
            (room_origin self) (desk_count self) desks.items (M.history result) }
    {
        let Room {
            board,
            mut seat,
            desks: count,
        } = self;
        recover(&board, &mut seat, desks, count)
    }
}
