//! What a room is started with, and what the seats of its board know. Of the types here only `Origin` ever has a
//! value: the others are seen by contracts alone.

use std::collections::LinkedList;

/// What a room is started with.
#[derive(Drop)]
pub struct Origin<M> {
    /// The number of turns that there will be at most.
    pub capacity: u64,
    /// The machine as it was at the start.
    pub machine: M,
}

/// What a desk's seat knows beside its place.
pub struct Card<E> {
    /// The ticket in hand.
    pub ticket: Option<u64>,
    /// The ticket that was drawn last, in hand or served.
    pub last: Option<u64>,
    /// Whether it is the desk's turn, so that the slot is its own.
    pub has_turn: bool,
    /// The entries that the desk has seen.
    pub seen: LinkedList<E>,
}

/// Whose the slot is.
pub enum Stage {
    /// No machine has come yet.
    Vacant,
    /// The room has it.
    Out,
    /// It is at home, or with the desk whose turn it is.
    Working,
}

/// The view of a seat, over what its room was started with.
pub enum View<E, P> {
    /// A seat that was joined to another.
    Spent,
    /// The seat of the desk at a place, with its card.
    AtDesk {
        origin: P,
        place: u64,
        card: Card<E>,
    },
    /// The room's seat: how many desks it has made, and the cards that it has collected, each with its place.
    InRoom {
        origin: P,
        desks: u64,
        stage: Stage,
        collected: LinkedList<(u64, Card<E>)>,
    },
}
