//! What becomes of a placement with its next container on each position, without placing it.

ghost use Rattle.std.specs.Prelude.{◌≡◌, ◌<◌, ◌++◌, ◌∷◌, [], Some, IfNone, IfSome, length, slice_get, option_map};
ghost use Rattle.hold_parts.specs.declared.parts.Item.{Item};
ghost use Rattle.hold_limits.specs.BranchOrder.{ordered};
ghost use Rattle.hold_reach.specs.Extents.{IsBounded};
ghost use Rattle.hold_reach.specs.Reach.{IsViable, bound, is_open, reach};
ghost use Rattle.hold_partial.specs.Kept.{IsKept};
ghost use Rattle.hold_partial.specs.Placing.{placing_of};

use crate::ahead::Ahead;
use crate::board::Board;
use hold_reach::{Extent, Span, gap_to_ideal, meets_window};
use position_set::PositionSet;
use std::marker::Model;

/// The next container of a placement, and what is ahead wherever it goes.
#[derive(Drop)]
pub struct Outlook<'p, 'a> {
    board: &'p Board<'a>,
    /// The positions that are open for the next container, by their ranks in the order of influence.
    open_ranks: PositionSet,
    /// What is ahead, where that is known.
    ahead: Option<Ahead>,
}

impl<'p, 'a> Model for Outlook<'p, 'a> {
    ghost use Rattle.hold_partial.specs.Placing.{Placing, placing_of};

    ghost Value = { Placing };

    ghost use Rattle.hold_partial.specs.Outlook.{IsOutlook};

    ghost view = { λ o. placing_of o.board.now.task.now o.board.now.prefix.items };

    ghost invariant = { λ o. IsOutlook o.board.now o.open_ranks o.ahead };
}

impl<'p, 'a> Outlook<'p, 'a> {
    /// The outlook from a board that leaves a container.
    pub fn of(board: &'p Board<'a>) -> Outlook<'p, 'a>
        requires kept { IsKept board.now }
        requires short { length board.now.prefix.items < length board.now.task.now.items }
        ensures { result ≡ placing_of board.now.task.now board.now.prefix.items }
    {
        Outlook {
            board,
            open_ranks: board.open_for_next(),
            ahead: board.ahead(),
        }
    }

    /// Whether the position is open for the next container.
    fn is_open(&self, number: u8) -> bool
        requires { number < length self.now.task.hold.positions }
        ensures { (item : Item) → slice_get (ordered self.now.task.items) (length self.now.prefix) ≡ Some item
            → result ≡ is_open self.now.task self.now.prefix item number }
    {
        self.open_ranks
            .contains(self.board.tables.positions[number as usize].rank)
    }

    /// The reach with the next container on the position, where what is ahead tells it.
    fn reach_told(&self, number: u8) -> Option<Span>
        requires { number < length self.now.task.hold.positions }
        ensures value { IfSome result (λ span. reach self.now.task (self.now.prefix ++ number ∷ [])
            ≡ Some (span.low, span.high)) }
        ensures bounded { IfSome result (IsBounded 490000000000) }
    {
        match &self.ahead {
            Some(ahead) => self.board.reach_ahead(ahead, number),
            None => None,
        }
    }

    /// The reach with the next container on the position. None where there is none.
    #[inline(always)]
    fn reach_on(&self, number: u8) -> Option<Span>
        requires { number < length self.now.task.hold.positions }
        ensures value { option_map (λ span. (span.low, span.high)) result
            ≡ reach self.now.task (self.now.prefix ++ number ∷ []) }
        ensures bounded { IfSome result (IsBounded 490000000000) }
    {
        if let Some(span) = self.reach_told(number) {
            return Some(span);
        }
        self.board.span_after(Extent::Reach, number)
    }

    /// The bound of the prefix with the next container on the position, in ticks, where that is viable.
    #[inline(always)]
    pub fn bound_on(&self, number: u8) -> Option<u64>
        requires { number < length self.now.task.hold.positions }
        ensures found { IfSome result (λ b. IsViable self.now.task (self.now.prefix ++ number ∷ [])
            × (bound self.now.task (self.now.prefix ++ number ∷ []) ≡ Some b)) }
        ensures none { IfNone result (IsViable self.now.task (self.now.prefix ++ number ∷ []) → ⊥) }
    {
        let board = self.board;
        if !self.is_open(number) {
            return None;
        }
        if !board.is_rising() {
            return None;
        }
        let span = self.reach_on(number)?;
        if !meets_window(board.task, span) {
            return None;
        }
        if board.limit_against(number).is_some() {
            return None;
        }
        if !board.can_meet_lateral_limit_after(number) {
            return None;
        }
        Some(gap_to_ideal(board.task, span))
    }
}
