//! An office that several desks have together, and each desk's counter of it.

ghost use Rattle.std.specs.Prelude.{◌≡◌, ◌<◌, ◌^◌};
ghost use Rattle.editions.specs.Books.{HasTables};

use crate::counter::Counter;
use aircraft_file::Aircraft;
use desk_lock::{Desk, Full, Machine};
use editions::Office;
use flight_history::{Entry, Reply, Request};
use flight_state::FlightState;
use keeper::Keeper;
use std::alloc::Global;
use std::collections::LinkedList;
use std::marker::Model;
use std::sync::Wait;

/// What an office opened with. It never has a value: only contracts speak of it.
pub struct Opened {
    fleet: LinkedList<Aircraft>,
    opening: LinkedList<FlightState>,
}

impl Model for Opened {
    ghost use Rattle.desk_service.specs.Turns.{Setting};

    ghost Value = { Setting };

    ghost view = { λ opened. record { fleet = opened.fleet; opening = opened.opening } };
}

/// An office with its keeper, which the desks of a room have together. The keeper's tables are those of the office's history.
#[derive(Drop)]
pub struct Bench<K: Keeper> {
    office: Office,
    keeper: K,
}

impl<K: Keeper> Model for Bench<K> {
    ghost use Rattle.std.specs.Prelude.{◌<◌, ◌^◌};
    ghost use Rattle.editions.specs.Books.{HasTables};
    ghost use Rattle.desk_service.specs.Alone.{Counted};

    ghost Value = { Counted };

    ghost view = { λ b. record { books = b.office; faults = K.faults b.keeper } };

    ghost invariant = { λ b. HasTables (K.tables b.keeper) b.office × (b.office.spare < 2 ^ 63) };
}

impl<K: Keeper> Bench<K> {
    /// The office with the keeper whose tables are its own.
    pub fn new(office: Office, keeper: K) -> Self
        requires tables { HasTables (K.tables keeper) office }
        requires few { office.spare < 2 ^ 63 }
        ensures { result ≡ record { books = office; faults = K.faults keeper } }
    {
        Bench { office, keeper }
    }

    /// The office and the keeper.
    pub fn parts(self) -> (Office, K)
        ensures office { result.0 ≡ self.books }
        ensures faults { K.faults result.1 ≡ self.faults }
        ensures tables { HasTables (K.tables result.1) result.0 }
    {
        (self.office, self.keeper)
    }
}

impl<K: Keeper + Drop> Machine for Bench<K> {
    ghost use Rattle.flight_history.specs.Asking.{IsWithinLimits};
    ghost use Rattle.desk_service.specs.Turns.{IsTurnAfter, setting_of};
    ghost use Rattle.desk_service.specs.Several.{IsAfter, room_for};
    ghost use Rattle.desk_service.specs.SeveralLaws.{is_few, is_after_itself, is_after_on};

    type Request = Request;

    type Reply = Reply;

    type Entry = Entry;

    type Setting = Opened;

    ghost setting = { λ b. setting_of b.books };

    ghost follows = { IsAfter };

    ghost history = { λ b. b.books.history };

    ghost spare = { room_for };

    ghost desk_of = { λ entry. entry.desk };

    ghost lawful = { IsWithinLimits };

    ghost fits = { IsTurnAfter };

    ghost few = { is_few };

    ghost follows_itself = { is_after_itself };

    ghost follows_on = { is_after_on };

    fn turn(&mut self, alloc: Global, desk: u32, request: Request) -> Reply {
        self.office.turn(alloc, &mut self.keeper, desk, request)
    }
}

impl<Rt: Wait, K: Keeper + Drop> Counter<Rt> for Desk<Bench<K>> {
    ghost use Rattle.desk_lock.specs.Desks.{number, seen, origin, IsFull, IsSameDesk};
    ghost use Rattle.desk_service.specs.DeskLaws.{is_same_itself, is_same_on};
    ghost use Rattle.desk_service.specs.Turns.{setting_of};

    ghost setting = { λ d. setting_of (origin d).machine.books };

    ghost desk = { number };

    ghost seen = { seen };

    ghost full = { IsFull };

    ghost follows = { IsSameDesk };

    ghost follows_itself = { is_same_itself };

    ghost follows_on = { is_same_on };

    fn call(&mut self, rt: &Rt, alloc: Global, request: Request) -> Result<Reply, Full<Request>> {
        Desk::call(self, rt, alloc, request)
    }
}
