//! The partial placement: a sound prefix of a task, one position more or one fewer at a time.

ghost use Rattle.std.specs.Prelude.{◌≡◌, ◌↔◌, ◌<◌, ◌≤◌, ◌++◌, ◌∷◌, [], ℕ, Some, None, IfOk, IfErr, IfSome, IfNone, IsOk, length, slice_get, option_map};
ghost use Rattle.std.specs.List.{AllZip};
ghost use Rattle.std.specs.Result.{OnOk, OnErr};
ghost use Rattle.hold_parts.specs.declared.parts.Item.{Item};
ghost use Rattle.hold_limits.specs.BranchOrder.{ordered};
ghost use Rattle.hold_limits.specs.Faults.{IsLawful};
ghost use Rattle.hold_limits.specs.Placement.{IsSound};
ghost use Rattle.hold_partial.specs.Placing.{placing_of};
ghost use Rattle.hold_reach.specs.Reach.{falls, is_open, remaining, reach, wide_reach, lateral_reach, bound, wide_bound, IsViable};
ghost use Rattle.hold_reach.specs.Rules.{limit_broken, rule_broken};
ghost use Rattle.position_set.specs.Sets.{Stands};

use crate::board::Board;
use crate::openness::{OpenSets, open_sets};
use crate::outlook::Outlook;
use hold_limits::Task;
use hold_reach::{Extent, RuleBroken, broken_limit, gap_to_ideal, meets_window};
use mass_units::Ticks;
use std::marker::Model;

/// A sound prefix of a task: positions for its first containers of branch order, which break no rule of the hold.
#[derive(Drop)]
pub struct Partial<'a> {
    board: Board<'a>,
}

impl<'a> Model for Partial<'a> {
    ghost use Rattle.hold_partial.specs.Placing.{Placing, placing_of};

    ghost Value = { Placing };

    ghost use Rattle.hold_partial.specs.Kept.{IsKept};

    ghost view = { λ p. placing_of p.board.task.now p.board.prefix.items };

    ghost invariant = { λ p. IsKept p.board };
}

impl<'a> Partial<'a> {
    /// The placement of no container yet. It is refused where the loose loads alone break a limit of the hold, with
    /// the first that they break.
    pub fn new(task: &'a Task) -> Result<Partial<'a>, RuleBroken>
        ensures made { IfOk result (λ partial. partial ≡ placing_of task.now []) }
        ensures sound { IsOk result ↔ IsSound task.now [] }
        ensures refused { IfErr result (λ rule. limit_broken task.now [] ≡ Some rule) }
    {
        match broken_limit(task, &[]) {
            Some(rule) => Err(rule),
            None => Ok(Partial {
                board: Board::new(task),
            }),
        }
    }

    /// The task.
    pub fn task(&self) -> &'a Task
        ensures value { result.now ≡ self.now.task }
        ensures lawful { IsLawful self.now.task }
    {
        self.board.task
    }

    /// The positions of the containers that are placed, in branch order.
    pub fn prefix(&self) -> &[u8]
        ensures value { result.now ≡ self.now.prefix }
        ensures sound { IsSound self.now.task self.now.prefix }
    {
        self.board.prefix.as_slice()
    }

    /// Whether the position is open for the container with this place in branch order, counted from 0, which is not
    /// placed yet.
    pub fn is_open(&self, item: u8, position: u8) -> bool
        requires left { length self.now.prefix ≤ item }
        requires known { item < length self.now.task.items }
        ensures { (container : Item) → slice_get (ordered self.now.task.items) item ≡ Some container
            → result ≡ is_open self.now.task self.now.prefix container position }
    {
        self.board.is_open(item as usize, position)
    }

    /// The positions that are open for each container that is left, in branch order.
    pub fn open_sets(&self) -> OpenSets
        ensures sets { AllZip (λ item set. Stands set (is_open self.now.task self.now.prefix item))
            (remaining self.now.task self.now.prefix) result.items }
        ensures count { length result.items ≡ length (remaining self.now.task self.now.prefix) }
    {
        open_sets(&self.board)
    }

    /// Whether a placed twin of the next container has a number of at least this one. Such a position may follow, and
    /// the placement is then no longer rising.
    pub fn falls(&self, position: u8) -> bool
        requires { length self.now.prefix < length self.now.task.items }
        ensures { (item : Item) → slice_get (ordered self.now.task.items) (length self.now.prefix) ≡ Some item
            → result ≡ falls self.now.task self.now.prefix item position }
    {
        self.board.falls(self.board.prefix.len(), position)
    }

    /// Places the next container of branch order on the position. It is refused where the placement would then
    /// break a rule of the hold, with the first that it would break, and is then as before.
    pub fn try_place(&mut self, position: u8) -> Result<(), RuleBroken>
        requires { length self.old.prefix < length self.old.task.items }
        ensures placed { OnOk result
            (self.new ≡ placing_of self.old.task (self.old.prefix ++ position ∷ [])) }
        ensures sound { IsOk result ↔ IsSound self.old.task (self.old.prefix ++ position ∷ []) }
        ensures refused { (item : Item)
            → slice_get (ordered self.old.task.items) (length self.old.prefix) ≡ Some item
            → IfErr result (λ rule.
            rule_broken self.old.task self.old.prefix item position ≡ Some rule) }
        ensures unchanged { OnErr result (self.new ≡ self.old) }
    {
        if let Some(rule) = self.board.rule_against(position) {
            return Err(rule);
        }
        self.board.put(position);
        Ok(())
    }

    /// Takes the container that was placed last off its position.
    pub fn undo(&mut self)
        requires { 0 < length self.old.prefix }
        ensures { (last : ℕ)
            × (self.old ≡ placing_of self.new.task (self.new.prefix ++ last ∷ [])) }
    {
        self.board.take_off();
    }

    /// How far the hold index can still reach, in ticks: the hold index so far, with the least and with the
    /// greatest moment that each remaining container has on an open position. None where one has no open position.
    pub fn reach(&self) -> Option<(Ticks, Ticks)>
        ensures { option_map (λ span. (span.0.0, span.1.0)) result
            ≡ reach self.now.task self.now.prefix }
    {
        let span = self.board.span(Extent::Reach)?;
        Some((Ticks(span.low), Ticks(span.high)))
    }

    /// The same over free positions: how far the hold index can still reach where twins need not rise. None where a
    /// remaining container has no free position.
    pub fn wide_reach(&self) -> Option<(Ticks, Ticks)>
        ensures { option_map (λ span. (span.0.0, span.1.0)) result
            ≡ wide_reach self.now.task self.now.prefix }
    {
        let span = self.board.span(Extent::WideReach)?;
        Some((Ticks(span.low), Ticks(span.high)))
    }

    /// How far the lateral difference can still reach over free positions, in kilograms. None where a remaining
    /// container has no free position.
    pub fn lateral_reach(&self) -> Option<(i64, i64)>
        ensures { result ≡ lateral_reach self.now.task self.now.prefix }
    {
        let span = self.board.span(Extent::LateralReach)?;
        Some((span.low, span.high))
    }

    /// How far the take-off indices in reach lie from the ideal band, in ticks. None where there is no reach.
    pub fn bound(&self) -> Option<u64>
        ensures { result ≡ bound self.now.task self.now.prefix }
    {
        Some(gap_to_ideal(self.board.task, self.board.span(Extent::Reach)?))
    }

    /// How far the take-off indices in wide reach lie from the ideal band, in ticks. None where there is no wide reach.
    pub fn wide_bound(&self) -> Option<u64>
        ensures { result ≡ wide_bound self.now.task self.now.prefix }
    {
        Some(gap_to_ideal(self.board.task, self.board.span(Extent::WideReach)?))
    }

    /// The bound of a viable prefix, in ticks. None where the prefix is not viable.
    pub fn viable_bound(&self) -> Option<u64>
        ensures found { IfSome result (λ b. IsViable self.now.task self.now.prefix
            × (bound self.now.task self.now.prefix ≡ Some b)) }
        ensures none { IfNone result (IsViable self.now.task self.now.prefix → ⊥) }
    {
        if !self.board.is_rising() {
            return None;
        }
        let span = self.board.span(Extent::Reach)?;
        if !meets_window(self.board.task, span) {
            return None;
        }
        if !self.board.can_meet_lateral_limit() {
            return None;
        }
        Some(gap_to_ideal(self.board.task, span))
    }

    /// What becomes of the placement with its next container on each position.
    pub fn outlook(&self) -> Outlook<'_, 'a>
        requires { length self.now.prefix < length self.now.task.items }
        ensures { result ≡ self.now }
    {
        Outlook::of(&self.board)
    }
}
