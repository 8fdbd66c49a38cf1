//! The board of a room: two words and a slot, the rule that they keep, and the steps that a seat may take.

ghost use Rattle.desk_lock.specs.Rule.{IsKept, first_view};
ghost use Rattle.desk_lock.specs.Steps.{Draws, Looks, Advances, Counts, Clears, Opens, Shuts};
ghost use Rattle.desk_lock.specs.Views.{with_one_more, next_desk, with_card_of};
ghost use Rattle.desk_lock.specs.declared.views.View.TheVariants.{Spent as spent_view};

use crate::machine::Machine;
use crate::views::{Origin, View};
use atomic_table::{Join, Play, Seat, Split, Table, TableRule};
use std::alloc::Global;
use std::marker::PhantomData;

/// The word that counts the tickets drawn.
pub(crate) const TICKETS: usize = 0;

/// The word with the ticket that is served.
pub(crate) const SERVING: usize = 1;

/// The slot that the machine stands in.
pub(crate) const MACHINE: usize = 0;

/// What a room and its desks share.
pub(crate) type Board<M> = Table<
    Option<M>,
    View<<M as Machine>::Entry, Origin<M>>,
    Origin<M>,
    TurnRule<M>,
    Global,
>;

/// What a room, or a desk, steps on its board with.
pub(crate) type BoardSeat<M> = Seat<Option<M>, View<<M as Machine>::Entry, Origin<M>>>;

/// The rule that holds between any two steps.
pub(crate) struct TurnRule<M> {
    machine: PhantomData<M>,
}

impl<M: Machine> TableRule<Option<M>, View<M::Entry, Origin<M>>, Origin<M>> for TurnRule<M> {
    ghost holds = { IsKept M.setting M.follows M.history M.spare M.desk_of };

    ghost first = { first_view };
}

/// A desk draws a ticket.
pub(crate) struct Draw;

impl<M: Machine> Play<Option<M>, View<M::Entry, Origin<M>>> for Draw {
    ghost then = { Draws };
}

/// A desk looks whether its ticket is served.
pub(crate) struct Look<M> {
    machine: PhantomData<M>,
}

impl<M: Machine> Play<Option<M>, View<M::Entry, Origin<M>>> for Look<M> {
    ghost then = { Looks M.setting M.follows M.history M.spare M.desk_of };
}

/// A desk ends its turn, and the next ticket is served.
pub(crate) struct Advance<M> {
    machine: PhantomData<M>,
}

impl<M: Machine> Play<Option<M>, View<M::Entry, Origin<M>>> for Advance<M> {
    ghost then = { Advances M.history };
}

/// A desk counts the tickets drawn.
pub(crate) struct Count;

impl<M: Machine> Play<Option<M>, View<M::Entry, Origin<M>>> for Count {
    ghost then = { Counts };
}

/// The room takes the empty slot.
pub(crate) struct Clear;

impl<M: Machine> Play<Option<M>, View<M::Entry, Origin<M>>> for Clear {
    ghost then = { Clears };
}

/// The room gives the slot to its desks, with the machine in it.
pub(crate) struct Open;

impl<M: Machine> Play<Option<M>, View<M::Entry, Origin<M>>> for Open {
    ghost then = { Opens };
}

/// The room takes the slot with the machine, after all turns.
pub(crate) struct Shut<M> {
    machine: PhantomData<M>,
}

impl<M: Machine> Play<Option<M>, View<M::Entry, Origin<M>>> for Shut<M> {
    ghost then = { Shuts M.setting M.follows M.history M.desk_of };
}

/// The room makes the seat of one more desk.
pub(crate) struct NextDesk<M> {
    machine: PhantomData<M>,
}

impl<M: Machine> Split<View<M::Entry, Origin<M>>> for NextDesk<M> {
    ghost left = { with_one_more };

    ghost right = { next_desk (λ p. M.history p.machine) };
}

/// The room collects the card of a desk that came back.
pub(crate) struct Collect;

impl<E, P> Join<View<E, P>> for Collect {
    ghost both = { with_card_of };

    ghost spent = { spent_view };
}
