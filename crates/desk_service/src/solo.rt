//! An office that one desk has for itself.

ghost use Rattle.std.specs.Prelude.{◌≡◌};
ghost use Rattle.editions.specs.Books.{HasTables};

use crate::counter::Counter;
use desk_lock::Full;
use editions::Office;
use flight_history::{Reply, Request};
use keeper::Keeper;
use std::alloc::Global;
use std::marker::Model;

/// The number of the desk.
const DESK: u32 = 1;

/// An office with its keeper, which desk 1 has for itself. The keeper's tables are those of the office's history.
#[derive(Drop)]
pub struct Solo<K: Keeper> {
    office: Office,
    keeper: K,
}

impl<K: Keeper> Model for Solo<K> {
    ghost use Rattle.editions.specs.Books.{HasTables};
    ghost use Rattle.desk_service.specs.Alone.{Counted};

    ghost Value = { Counted };

    ghost view = { λ s. record { books = s.office; faults = K.faults s.keeper } };

    ghost invariant = { λ s. HasTables (K.tables s.keeper) s.office };
}

impl<K: Keeper> Solo<K> {
    /// The office with the keeper whose tables are its own.
    pub fn new(office: Office, keeper: K) -> Self
        requires tables { HasTables (K.tables keeper) office }
        ensures { result ≡ record { books = office; faults = K.faults keeper } }
    {
        Solo { office, keeper }
    }

    /// The office and the keeper.
    pub fn parts(self) -> (Office, K)
        ensures office { result.0 ≡ self.books }
        ensures faults { K.faults result.1 ≡ self.faults }
        ensures tables { HasTables (K.tables result.1) result.0 }
    {
        (self.office, self.keeper)
    }
}

impl<Rt, K: Keeper> Counter<Rt> for Solo<K> {
    ghost use Rattle.std.specs.Prelude.{◌≡◌};
    ghost use Rattle.desk_service.specs.Turns.{setting_of};
    ghost use Rattle.desk_service.specs.Alone.{IsLater};
    ghost use Rattle.desk_service.specs.AloneLaws.{is_later_itself, is_later_on};

    ghost setting = { λ s. setting_of s.books };

    ghost desk = { λ _. 1 };

    ghost seen = { λ s. s.books.history };

    ghost full = { λ s. s.books.spare ≡ 0 };

    ghost follows = { IsLater };

    ghost follows_itself = { is_later_itself };

    ghost follows_on = { is_later_on };

    fn call(&mut self, _rt: &Rt, alloc: Global, request: Request) -> Result<Reply, Full<Request>> {
        if self.office.spare() == 0 {
            return Err(Full { request });
        }
        Ok(self.office.turn(alloc, &mut self.keeper, DESK, request))
    }
}
