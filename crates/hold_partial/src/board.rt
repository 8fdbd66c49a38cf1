//! What is kept of a sound prefix of a task, which changes little with one container more or fewer.

ghost use Rattle.std.specs.Prelude.{◌≡◌, ◌↔◌, ◌<◌, ◌≤◌, ◌&&◌, ◌||◌, ◌==◌, ◌++◌, ◌∷◌, [], ℕ, List, not, unsigned_abs, Some, None, true, false, IfSome, IsTrue, length, slice_get, option_map};
ghost use Rattle.hold_parts.specs.declared.parts.Item.{Item};
ghost use Rattle.hold_limits.specs.BranchOrder.{ordered};
ghost use Rattle.hold_limits.specs.Faults.{IsLawful};
ghost use Rattle.hold_limits.specs.Placement.{IsSound};
ghost use Rattle.hold_limits.specs.Enumeration.{exclude};
ghost use Rattle.hold_limits.specs.Twins.{IsRising};
ghost use Rattle.hold_reach.specs.Extents.{may_stand, amount_of, so_far, reached, IsBounded, IsSpanOfList};
ghost use Rattle.hold_reach.specs.Reach.{falls, is_open, amounts, lateral_reach, reach, MeetsLateral};
ghost use Rattle.hold_reach.specs.Rules.{limit_broken, rule_broken};
ghost use Rattle.hold_partial.specs.Ahead.{AreExtremes, IsAhead, Spares};
ghost use Rattle.hold_partial.specs.Kept.{IsKept};
ghost use Rattle.hold_partial.specs.Arrangement.{Ranked, at_rank};
ghost use Rattle.hold_partial.specs.Levels.{IsLevel};
ghost use Rattle.position_set.specs.Sets.{has, Stands};

use crate::ahead::{Ahead, Extremes};
use crate::closed::Closed;
use crate::level::Level;
use crate::limit_table::{LimitMasses, loose_masses, rule_of};
use crate::loads::{add_load, first_over, take_load};
use crate::tables::Tables;
use hold_limits::{Path, Task, hold_index_of, lateral_difference_of};
use hold_reach::{Extent, RuleBroken, Span, meets_lateral_limit};
use position_set::PositionSet;

/// A sound prefix of a task, with what is looked up of the task and what is kept of the prefix.
#[derive(Drop)]
pub struct Board<'a> {
    pub task: &'a Task,
    pub prefix: Path,
    pub tables: Tables,
    /// What is kept of each front of the prefix, by its length. Later entries mean nothing.
    pub levels: [Level; 61],
    /// The loads of the limits under the prefix.
    pub loads: LimitMasses,
    /// The positions that placed containers close to their twins.
    pub closed: Closed,
}

fn level_of_none(task: &Task) -> Level
    ensures value { (ranks : List Ranked) → IsLevel task.now ranks [] result }
    ensures lawful { IsLawful task.now }
{
    let none = Path::new();
    Level {
        used: PositionSet::empty(),
        blocked_ranks: PositionSet::empty(),
        index: hold_index_of(task, none.as_slice()),
        lateral: lateral_difference_of(task, none.as_slice()),
        rising: true,
    }
}

impl<'a> Board<'a> {
    /// The board of the prefix without containers.
    pub fn new(task: &'a Task) -> Board<'a>
        requires { IsSound task.now [] }
        ensures kept { IsKept result }
        ensures task { result.task.now ≡ task.now }
        ensures empty { result.prefix.items ≡ [] }
    {
        Board {
            task,
            prefix: Path::new(),
            tables: Tables::of(task),
            levels: [level_of_none(task); 61],
            loads: loose_masses(task),
            closed: Closed::nothing(),
        }
    }

    /// The first limit that breaks where the next container follows on the position.
    pub fn limit_against(&self, position: u8) -> Option<RuleBroken>
        requires kept { IsKept self.now }
        requires short { length self.now.prefix.items < length self.now.task.now.items }
        requires known { position < length self.now.task.now.hold.positions }
        ensures { result ≡ limit_broken self.now.task.now (self.now.prefix.items ++ position ∷ []) }
    {
        let limits = self.tables.limits[position as usize].as_slice();
        let mass = self.tables.demands[self.prefix.len()].mass;
        let place = first_over(&self.loads, &self.tables.allowed, limits, mass)?;
        Some(rule_of(self.task.hold(), place))
    }

    /// The first rule that breaks where the next container follows on the position.
    pub fn rule_against(&self, position: u8) -> Option<RuleBroken>
        requires kept { IsKept self.now }
        requires short { length self.now.prefix.items < length self.now.task.now.items }
        ensures { (item : Item)
            → slice_get (ordered self.now.task.now.items) (length self.now.prefix.items) ≡ Some item
            → result ≡ rule_broken self.now.task.now self.now.prefix.items item position }
    {
        if position as usize >= self.tables.positions.len() {
            return Some(RuleBroken::Unknown);
        }
        let rank = self.prefix.len();
        let used = self.levels[rank].used;
        let demand = self.tables.demands[rank];
        if used.contains(position) {
            return Some(RuleBroken::Taken);
        }
        if !demand.of_kind.contains(position) {
            return Some(RuleBroken::NoFit);
        }
        if !demand.accepting.contains(position) {
            return Some(RuleBroken::TooHeavy);
        }
        let excluding = self.tables.positions[position as usize].excluding;
        if let Some(other) = excluding.intersection(used).first() {
            return Some(RuleBroken::Excluded(other));
        }
        self.limit_against(position)
    }

    /// Places the next container on the position, which may follow.
    pub fn put(&mut self, position: u8)
        requires kept { IsKept self.old }
        requires sound { IsSound self.old.task.now (self.old.prefix.items ++ position ∷ []) }
        ensures kept { IsKept self.new }
        ensures task { self.new.task.now ≡ self.old.task.now }
        ensures prefix { self.new.prefix.items ≡ self.old.prefix.items ++ position ∷ [] }
    {
        let rank = self.prefix.len();
        let level = self.levels[rank];
        let demand = self.tables.demands[rank];
        let entry = self.tables.positions[position as usize];
        let falls = self.closed.to[demand.twins as usize].contains(entry.rank);
        self.levels[rank + 1] = level.with(&demand, &entry, position, falls);
        self.closed.close(rank, demand.twins, entry.closed_ranks);
        let limits = self.tables.limits[position as usize].as_slice();
        add_load(&mut self.loads, limits, demand.mass);
        self.prefix.push(position);
    }

    /// Takes the container that was placed last off its position.
    pub fn take_off(&mut self)
        requires kept { IsKept self.old }
        requires some { 0 < length self.old.prefix.items }
        ensures kept { IsKept self.new }
        ensures task { self.new.task.now ≡ self.old.task.now }
        ensures prefix { (last : ℕ) × (self.old.prefix.items ≡ self.new.prefix.items ++ last ∷ []) }
    {
        if let Some(position) = self.prefix.pop() {
            let rank = self.prefix.len();
            let demand = self.tables.demands[rank];
            self.closed.reopen(rank, demand.twins);
            let limits = self.tables.limits[position as usize].as_slice();
            take_load(&mut self.loads, limits, demand.mass);
        }
    }

    /// The positions where the container of a rank of branch order may stand, by their ranks in the order of influence.
    fn places_for(&self, extent: Extent, item: usize) -> PositionSet
        requires kept { IsKept self.now }
        requires known { item < length self.now.task.now.items }
        ensures { (container : Item) → slice_get (ordered self.now.task.now.items) item ≡ Some container
            → Stands result (at_rank (may_stand extent self.now.task.now self.now.prefix.items container)
            self.now.tables.ranks.items) }
    {
        let demand = &self.tables.demands[item];
        let blocked = self.levels[self.prefix.len()].blocked_ranks;
        let free = demand.accepting_ranks.difference(blocked);
        match extent {
            Extent::Reach => free.difference(self.closed.to[demand.twins as usize]),
            Extent::WideReach | Extent::LateralReach => free,
        }
    }

    /// Whether a placed twin of the container of a rank of branch order has a number of at least this one.
    pub fn falls(&self, item: usize, position: u8) -> bool
        requires kept { IsKept self.now }
        requires known { item < length self.now.task.now.items }
        ensures { (container : Item) → slice_get (ordered self.now.task.now.items) item ≡ Some container
            → result ≡ falls self.now.task.now self.now.prefix.items container position }
    {
        if position as usize >= self.tables.positions.len() {
            return false;
        }
        let class = self.tables.demands[item].twins;
        self.closed.to[class as usize].contains(self.tables.positions[position as usize].rank)
    }

    /// Whether the position is open for the container of a rank of branch order.
    pub fn is_open(&self, item: usize, position: u8) -> bool
        requires kept { IsKept self.now }
        requires known { item < length self.now.task.now.items }
        ensures { (container : Item) → slice_get (ordered self.now.task.now.items) item ≡ Some container
            → result ≡ is_open self.now.task.now self.now.prefix.items container position }
    {
        if position as usize >= self.tables.positions.len() {
            return false;
        }
        self.places_for(Extent::Reach, item)
            .contains(self.tables.positions[position as usize].rank)
    }

    fn start_of(&self, extent: Extent) -> i64
        requires { IsKept self.now }
        ensures value { result ≡ so_far extent self.now.task.now self.now.prefix.items }
        ensures bounded { unsigned_abs result ≤ 248000000000 }
    {
        let level = &self.levels[self.prefix.len()];
        match extent {
            Extent::Reach | Extent::WideReach => level.index.0,
            Extent::LateralReach => level.lateral,
        }
    }

    /// What the container of a rank of branch order adds on the positions where it may stand, from the least to the
    /// greatest. None where it may stand nowhere.
    fn amounts_of(&self, extent: Extent, item: usize) -> Option<Span>
        requires kept { IsKept self.now }
        requires known { item < length self.now.task.now.items }
        ensures { (container : Item) → slice_get (ordered self.now.task.now.items) item ≡ Some container
            → IsSpanOfList (amounts self.now.task.now (may_stand extent self.now.task.now self.now.prefix.items)
            (amount_of extent self.now.task.now.hold) container) result }
    {
        let places = self.places_for(extent, item);
        self.tables
            .amounts_on(extent, self.tables.demands[item].mass, places)
    }

    /// What there is so far, with the least and with the greatest amount that each remaining container adds on a
    /// position where it may stand. None where one may stand nowhere.
    pub fn span(&self, extent: Extent) -> Option<Span>
        requires { IsKept self.now }
        ensures value { option_map (λ span. (span.low, span.high)) result
            ≡ reached extent self.now.task.now self.now.prefix.items }
        ensures bounded { IfSome result (IsBounded 368000000000) }
    {
        let mut span = Span::at(self.start_of(extent));
        for item in self.prefix.len()..self.tables.demands.len() {
            span = span.plus(self.amounts_of(extent, item)?);
        }
        Some(span)
    }

    /// Whether of any two placed twins the later in branch order has the greater number.
    pub fn is_rising(&self) -> bool
        requires { IsKept self.now }
        ensures { IsTrue result ↔ IsRising self.now.task.now self.now.prefix.items }
    {
        self.levels[self.prefix.len()].rising
    }

    /// Whether some lateral difference in reach is within the lateral limit of the hold, if it has one.
    pub fn can_meet_lateral_limit(&self) -> bool
        requires { IsKept self.now }
        ensures { IsTrue result ↔ MeetsLateral self.now.task.now.hold
            (lateral_reach self.now.task.now self.now.prefix.items) }
    {
        let hold = self.task.hold();
        if hold.lateral().is_none() {
            return true;
        }
        match self.span(Extent::LateralReach) {
            Some(span) => meets_lateral_limit(hold, span),
            None => false,
        }
    }

    /// The open positions where the container of a rank of branch order has its least and greatest moments. None where no
    /// position is open for it.
    fn extremes_of(&self, item: usize) -> Option<Extremes>
        requires kept { IsKept self.now }
        requires known { item < length self.now.task.now.items }
        ensures { (container : Item) → slice_get (ordered self.now.task.now.items) item ≡ Some container
            → IfSome result (AreExtremes self.now.task.now self.now.prefix.items container) }
    {
        let places = self.places_for(Extent::Reach, item);
        let first = places.first()?;
        let last = places.last()?;
        let mass = self.tables.demands[item].mass;
        Some(Extremes {
            first: self.tables.number_at(first),
            last: self.tables.number_at(last),
            span: self.tables.span_between(mass, first, last),
        })
    }

    /// The positions where the container of a rank of branch order may stand now, without those that the next container
    /// on the position blocks, by their ranks in the order of influence.
    fn unblocked(&self, extent: Extent, position: u8, item: usize) -> PositionSet
        requires kept { IsKept self.now }
        requires position { position < length self.now.task.now.hold.positions }
        requires item { item < length self.now.task.now.items }
        ensures { (container : Item) → slice_get (ordered self.now.task.now.items) item ≡ Some container
            → Stands result (at_rank (λ a. may_stand extent self.now.task.now self.now.prefix.items container a
            && not ((position == a) || exclude self.now.task.now.hold position a)) self.now.tables.ranks.items) }
    {
        let entry = &self.tables.positions[position as usize];
        self.places_for(extent, item)
            .difference(entry.blocked_ranks)
    }

    /// The positions that are open for the container of a rank of branch order once the next one stands on the position.
    fn open_after(&self, position: u8, item: usize) -> PositionSet
        requires kept { IsKept self.now }
        requires short { length self.now.prefix.items < length self.now.task.now.items }
        requires position { position < length self.now.task.now.hold.positions }
        requires item { item < length self.now.task.now.items }
        ensures { (container : Item) → slice_get (ordered self.now.task.now.items) item ≡ Some container
            → Stands result (at_rank (is_open self.now.task.now (self.now.prefix.items ++ position ∷ []) container)
            self.now.tables.ranks.items) }
    {
        let unblocked = self.unblocked(Extent::Reach, position, item);
        let next = self.prefix.len();
        if self.tables.demands[item].twins == self.tables.demands[next].twins {
            unblocked.difference(self.tables.positions[position as usize].closed_ranks)
        } else {
            unblocked
        }
    }

    /// The positions where the container of a rank of branch order may stand once the next one stands on the position.
    fn places_after(&self, extent: Extent, position: u8, item: usize) -> PositionSet
        requires kept { IsKept self.now }
        requires short { length self.now.prefix.items < length self.now.task.now.items }
        requires position { position < length self.now.task.now.hold.positions }
        requires item { item < length self.now.task.now.items }
        ensures { (container : Item) → slice_get (ordered self.now.task.now.items) item ≡ Some container
            → Stands result (at_rank (may_stand extent self.now.task.now (self.now.prefix.items ++ position ∷ [])
            container) self.now.tables.ranks.items) }
    {
        match extent {
            Extent::Reach => self.open_after(position, item),
            Extent::WideReach | Extent::LateralReach => self.unblocked(extent, position, item),
        }
    }

    /// What the container of a rank of branch order adds, from the least to the greatest, once the next one stands on the
    /// position. None where it may then stand nowhere.
    pub fn amounts_after(&self, extent: Extent, position: u8, item: usize) -> Option<Span>
        requires kept { IsKept self.now }
        requires short { length self.now.prefix.items < length self.now.task.now.items }
        requires position { position < length self.now.task.now.hold.positions }
        requires item { item < length self.now.task.now.items }
        ensures { (container : Item) → slice_get (ordered self.now.task.now.items) item ≡ Some container
            → IsSpanOfList (amounts self.now.task.now
            (may_stand extent self.now.task.now (self.now.prefix.items ++ position ∷ []))
            (amount_of extent self.now.task.now.hold) container) result }
    {
        let places = self.places_after(extent, position, item);
        self.tables
            .amounts_on(extent, self.tables.demands[item].mass, places)
    }

    /// What the next container adds on the position.
    fn added_on(&self, extent: Extent, position: u8) -> i64
        requires kept { IsKept self.now }
        requires short { length self.now.prefix.items < length self.now.task.now.items }
        requires position { position < length self.now.task.now.hold.positions }
        ensures value { (item : Item)
            → slice_get (ordered self.now.task.now.items) (length self.now.prefix.items) ≡ Some item
            → result ≡ amount_of extent self.now.task.now.hold (item, position) }
        ensures bounded { unsigned_abs result ≤ 2000000000 }
    {
        let mass = self.tables.demands[self.prefix.len()].mass;
        let entry = &self.tables.positions[position as usize];
        match extent {
            Extent::Reach | Extent::WideReach => entry.moment(mass),
            Extent::LateralReach => entry.lateral(mass),
        }
    }

    /// What there is so far with the next container on the position.
    fn start_after(&self, extent: Extent, position: u8) -> i64
        requires kept { IsKept self.now }
        requires short { length self.now.prefix.items < length self.now.task.now.items }
        requires position { position < length self.now.task.now.hold.positions }
        ensures value { result ≡ so_far extent self.now.task.now (self.now.prefix.items ++ position ∷ []) }
        ensures bounded { unsigned_abs result ≤ 248000000000 }
    {
        self.start_of(extent) + self.added_on(extent, position)
    }

    /// The span with the next container on the position. None where a container after it may then stand nowhere.
    pub fn span_after(&self, extent: Extent, position: u8) -> Option<Span>
        requires kept { IsKept self.now }
        requires short { length self.now.prefix.items < length self.now.task.now.items }
        requires position { position < length self.now.task.now.hold.positions }
        ensures value { option_map (λ span. (span.low, span.high)) result
            ≡ reached extent self.now.task.now (self.now.prefix.items ++ position ∷ []) }
        ensures bounded { IfSome result (IsBounded 368000000000) }
    {
        let mut span = Span::at(self.start_after(extent, position));
        for item in self.prefix.len() + 1..self.tables.demands.len() {
            span = span.plus(self.amounts_after(extent, position, item)?);
        }
        Some(span)
    }

    /// Whether some lateral difference in reach with the next container on the position is within the lateral limit of the
    /// hold, if it has one.
    #[inline(always)]
    pub fn can_meet_lateral_limit_after(&self, position: u8) -> bool
        requires kept { IsKept self.now }
        requires short { length self.now.prefix.items < length self.now.task.now.items }
        requires position { position < length self.now.task.now.hold.positions }
        ensures { IsTrue result ↔ MeetsLateral self.now.task.now.hold
            (lateral_reach self.now.task.now (self.now.prefix.items ++ position ∷ [])) }
    {
        let hold = self.task.hold();
        if hold.lateral().is_none() {
            return true;
        }
        match self.span_after(Extent::LateralReach, position) {
            Some(span) => meets_lateral_limit(hold, span),
            None => false,
        }
    }

    /// The positions that are open for the next container, by their ranks in the order of influence.
    pub fn open_for_next(&self) -> PositionSet
        requires kept { IsKept self.now }
        requires short { length self.now.prefix.items < length self.now.task.now.items }
        ensures { (item : Item) → slice_get (ordered self.now.task.now.items) (length self.now.prefix.items) ≡ Some item
            → Stands result (at_rank (is_open self.now.task.now self.now.prefix.items item)
            self.now.tables.ranks.items) }
    {
        self.places_for(Extent::Reach, self.prefix.len())
    }

    /// What is ahead of the prefix. None where a container after the next one that is no twin of it has no open position.
    pub fn ahead(&self) -> Option<Ahead>
        requires kept { IsKept self.now }
        requires short { length self.now.prefix.items < length self.now.task.now.items }
        ensures { (item : Item) → slice_get (ordered self.now.task.now.items) (length self.now.prefix.items) ≡ Some item
            → IfSome result (IsAhead self.now.task.now self.now.prefix.items item) }
    {
        let next = self.prefix.len();
        let class = self.tables.demands[next].twins;
        let mut ahead = Ahead::of_index(self.start_of(Extent::Reach));
        for item in next + 1..self.tables.demands.len() {
            if self.tables.demands[item].twins == class {
                ahead = ahead.with_twin();
            } else {
                ahead = ahead.with(self.extremes_of(item)?);
            }
        }
        Some(ahead)
    }

    /// Whether the next container on the position leaves the ends ahead as they are.
    fn spares(&self, ahead: &Ahead, position: u8) -> bool
        requires kept { IsKept self.now }
        requires position { position < length self.now.task.now.hold.positions }
        requires ends { (a : ℕ) → has ahead.now.ends a ≡ true → a < length self.now.task.now.hold.positions }
        ensures { IsTrue result → Spares self.now.task.now.hold ahead.now.ends position }
    {
        let excluding = self.tables.positions[position as usize].excluding;
        !ahead.ends.contains(position) && ahead.ends.intersection(excluding).is_empty()
    }

    /// The reach with the next container on the position. None where what is ahead does not tell it.
    pub fn reach_ahead(&self, ahead: &Ahead, position: u8) -> Option<Span>
        requires kept { IsKept self.now }
        requires short { length self.now.prefix.items < length self.now.task.now.items }
        requires position { position < length self.now.task.now.hold.positions }
        requires ahead { (item : Item)
            → slice_get (ordered self.now.task.now.items) (length self.now.prefix.items) ≡ Some item
            → IsAhead self.now.task.now self.now.prefix.items item ahead.now }
        ensures value { IfSome result (λ span. reach self.now.task.now (self.now.prefix.items ++ position ∷ [])
            ≡ Some (span.low, span.high)) }
        ensures bounded { IfSome result (IsBounded 490000000000) }
    {
        if !self.spares(ahead, position) {
            return None;
        }
        let added = Span::at(self.added_on(Extent::Reach, position));
        if ahead.twins == 0 {
            return Some(ahead.reach.plus(added));
        }
        let each_twin = self.amounts_after(Extent::Reach, position, self.prefix.len())?;
        Some(ahead.reach_with(added, each_twin))
    }
}
