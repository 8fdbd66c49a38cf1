//! A desk of a room, and its calls.

ghost use Rattle.std.specs.Prelude.{◌≡◌, ◌<◌, [], false};
ghost use Rattle.std.specs.Arc.{arc_value};
ghost use Rattle.desk_lock.specs.Views.{card, seen_of, lasting_ticket};
ghost use Rattle.desk_lock.specs.Steps.{desk_seat, IsSeatOf};

use crate::board::{Board, BoardSeat};
use crate::desk_steps::{draw, serve, stand_back, wait, wake};
use crate::machine::Machine;
use std::alloc::Global;
use std::sync::{Arc, Wait};

/// The room has taken all its turns. The request comes back.
#[derive(Drop)]
pub struct Full<R> {
    pub request: R,
}

/// A desk of a room: a token to call the room's machine with.
///
/// A desk that was once answered `Full` keeps the ticket that it drew, and is answered so from then on.
#[derive(Drop)]
pub struct Desk<M: Machine> {
    pub(crate) board: Arc<Board<M>>,
    pub(crate) seat: BoardSeat<M>,
    pub(crate) place: u32,
    pub(crate) desks: u32,
    pub(crate) capacity: u64,
    pub(crate) ticket: Option<u64>,
    ghost of: { IsSeatOf (arc_value board).shared.table_id seat.table_id },
    ghost few: { place < 8 },
    ghost limit: { capacity ≡ (arc_value board).shared.key.capacity },
    ghost idle: { seat.me
        ≡ desk_seat (arc_value board).shared.key place
        (card (lasting_ticket capacity ticket) ticket false (seen_of seat.me.0)) [] },
}

impl<M: Machine> Desk<M> {
    ghost use Rattle.std.specs.Prelude.{◌↔◌, IsTrue, IsErr, IfOk, IfErr, OnOk, OnErr};
    ghost use Rattle.desk_lock.specs.Desks.{number, seen, ticket, origin, IsFull, IsAtItsPlace, IsSameDesk, IsAnswered};

    /// The desk's number in its room, counted from 1.
    pub fn number(&self) -> u32
        ensures { result ≡ number self.now }
    {
        self.place + 1
    }

    /// The ticket that the desk drew last, counted from 0 at the room's start. None before its first call.
    pub fn ticket(&self) -> Option<u64>
        ensures { result ≡ ticket self.now }
    {
        self.ticket
    }

    /// Whether the desk was answered `Full`.
    pub fn is_full(&self) -> bool
        ensures { IsTrue result ↔ IsFull self.now }
    {
        match self.ticket {
            Some(ticket) => ticket >= self.capacity,
            None => false,
        }
    }

    /// Calls the machine: draws a ticket, waits until it is served, and takes one turn.
    ///
    /// It may wait forever: nothing is claimed on when a ticket is served.
    pub fn call<R: Wait>(
        &mut self,
        rt: &R,
        alloc: Global,
        request: M::Request,
    ) -> Result<M::Reply, Full<M::Request>>
        requires { M.lawful request }
        ensures same { IsSameDesk self.old self.new }
        ensures answered { IfOk result (λ reply. IsAnswered M.desk_of M.fits
            (M.setting (origin self.old).machine) (number self.old) request reply (seen self.old) (seen self.new)) }
        ensures place { OnOk result (IsAtItsPlace M.history self.new) }
        ensures returned { IfErr result (λ full. full.request ≡ request) }
        ensures unseen { OnErr result (seen self.new ≡ seen self.old) }
        ensures full { OnErr result (IsFull self.new) }
        ensures forever { IsFull self.old → IsErr result }
    {
        if self.is_full() {
            return Err(Full { request });
        }
        stand_back(&self.board, &mut self.seat);
        let ticket = draw(&self.board, &mut self.seat, self.place);
        self.ticket = Some(ticket);
        if ticket >= self.capacity {
            return Err(Full { request });
        }
        wait(rt, &self.board, &mut self.seat, self.place, ticket);
        let reply = serve(
            &self.board,
            &mut self.seat,
            self.place,
            ticket,
            alloc,
            request,
        );
        wake(&self.board, &mut self.seat);
        Ok(reply)
    }
}
