//! How a candidate gets a position, by a shortest path over what positions cost more than the prices are.

ghost use Rattle.std.specs.Prelude.{◌≡◌, ◌<◌, ◌≤ℤ◌, ◌+ℤ◌, ◌-ℤ◌, ℕ, ℤ, pos, true, All, IfSome, length};
ghost use Rattle.position_set.specs.Sets.{has};
ghost use Rattle.assignment.specs.Prices.{price_at};
ghost use Rattle.assignment.specs.Tables.{IsWithin, cost_at};
ghost use Rattle.assignment_draft.specs.declared.prices.Prices.{Prices};
ghost use Rattle.assignment_draft.specs.Drafts.{AreMoved, AreSeated, AreSound, item_span, place_span, table};
ghost use Rattle.assignment_draft.specs.Trees.{AreBelow, AreLifted, AreLowered, IsCloser, IsMeasured, IsOpen, IsTree, gap_at, gap_span};

use crate::prices::{Prices, lesser};
use crate::seats::Seats;
use position_set::PositionSet;

/// More than any gap, in ticks.
const FAR: i64 = 8_000_000_000_000;

/// The most that prices move, in ticks.
const MOST_MOVED: i64 = 2_004_000_000_000;

/// The least price that a position may have, in ticks.
const LEAST_PLACE: i64 = -1_000_000_000_000;

/// The greatest price that a candidate may have, in ticks.
const GREATEST_ITEM: i64 = 1_002_000_000_000;

/// The most positions.
const MOST_POSITIONS: usize = 64;

/// The candidates that may have to change places so that one without a position gets one, and the positions that they
/// reach. The gap of a position is how much more it costs a member than their prices are, and how far prices had moved
/// when that was so.
#[derive(Drop)]
struct Tree {
    /// The least gap of each position that was seen.
    gaps: [i64; 64],
    /// The candidate from which each position has its gap.
    from: [u8; 64],
    /// The members: the first candidate, and those who have positions that were reached.
    members: PositionSet,
    /// The positions that were seen and that somebody has.
    ahead: PositionSet,
    /// The positions that were reached.
    reached: PositionSet,
    /// The nearest position that nobody has.
    goal: Option<u8>,
    /// Its gap.
    limit: i64,
    /// How far the price of the first member moved.
    moved: i64,
    /// How far prices can still move.
    room: i64,
}

/// The nearest of the positions that somebody has, if it is nearer than the goal, and how far prices have moved once it
/// costs just what they are; else how far once the goal does.
#[derive(Clone, Copy)]
struct Nearest {
    position: Option<u8>,
    gap: i64,
}

/// So much, or none where it is less than none, or the most that there is.
fn up_to(much: i64, most: i64) -> i64
    requires { pos 0 ≤ℤ most }
    ensures low { pos 0 ≤ℤ result }
    ensures most { result ≤ℤ most }
    ensures much { (bound : ℤ) → pos 0 ≤ℤ bound → much ≤ℤ bound → result ≤ℤ bound }
{
    if much < 0 { 0 } else { lesser(much, most) }
}

/// An offset and what the position costs the candidate, less the price of the position.
fn gap_from(offset: i64, prices: &Prices, number: u8, position: u8) -> i64
    requires sound { AreSound prices.now }
    requires number { number < length prices.now.candidates.items }
    requires position { position < length prices.now.influences.items }
    requires offset { IsWithin 5000000000000 offset }
    ensures gap { result ≡ (offset +ℤ cost_at (table prices.now.candidates.items prices.now.influences.items) number position)
        -ℤ price_at prices.now.places.items position }
    ensures near { IsWithin gap_span result }
{
    offset + prices.cost(number, position) - prices.places[usize::from(position)]
}

impl Tree {
    /// The tree without a member.
    fn new(first: u8) -> Tree
        ensures { (prices : Prices) → first < length prices.candidates.items → IsTree prices result }
    {
        Tree {
            gaps: [FAR; 64],
            from: [first; 64],
            members: PositionSet::empty(),
            ahead: PositionSet::empty(),
            reached: PositionSet::empty(),
            goal: None,
            limit: FAR,
            moved: 0,
            room: MOST_MOVED,
        }
    }

    /// Takes the gap of a position from a candidate, if the position is nearer than it was, and than the goal.
    fn see(&mut self, seats: &Seats, position: u8, gap: i64, number: u8)
        requires position { position < 64 }
        requires gap { IsWithin gap_span gap }
        ensures tree { (prices : Prices) → number < length prices.candidates.items → position < length prices.influences.items
            → IsTree prices self.old → IsTree prices self.new }
        ensures closer { IsCloser self.old self.new }
        ensures seen { (least : ℤ) → least ≤ℤ gap_at self.new.gaps position → least ≤ℤ self.new.limit → least ≤ℤ gap }
    {
        let place = usize::from(position);
        if gap < self.limit && gap < self.gaps[place] {
            self.gaps[place] = gap;
            self.from[place] = number;
            if seats.holders[place].is_some() {
                self.ahead = self.ahead.with(position);
            } else {
                self.goal = Some(position);
                self.limit = gap;
            }
        }
    }

    /// Sees positions that are open for the candidate.
    fn look_at(&mut self, prices: &Prices, seats: &Seats, number: u8, positions: PositionSet)
        requires sound { AreSound prices.now }
        requires number { number < length prices.now.candidates.items }
        requires tree { IsTree prices.now self.old }
        requires are_open { (position : ℕ) → has positions position ≡ true → IsOpen prices.now number position }
        ensures tree { IsTree prices.now self.new }
        ensures closer { IsCloser self.old self.new }
        ensures seen { (position : ℕ) → has positions position ≡ true → IsMeasured prices.now self.new number position }
    {
        let offset = self.moved - prices.items[usize::from(number)];
        let mut rest = positions;
        while let Some(position) = rest.first() {
            rest = rest.without(position);
            let gap = gap_from(offset, prices, number, position);
            self.see(seats, position, gap, number);
        }
    }

    /// Takes in a member: it sees the positions that are open for it, and first of all those that nobody has.
    fn join(&mut self, prices: &Prices, seats: &Seats, number: u8)
        requires sound { AreSound prices.now }
        requires number { number < length prices.now.candidates.items }
        requires tree { IsTree prices.now self.old }
        ensures { IsTree prices.now self.new }
    {
        let open = prices.candidates[usize::from(number)].open;
        let fresh = open.difference(self.reached);
        self.look_at(prices, seats, number, fresh.difference(seats.held));
        self.look_at(prices, seats, number, fresh.intersection(seats.held));
        self.members = self.members.with(number);
        self.room = lesser(self.room, GREATEST_ITEM - prices.items[usize::from(number)]);
    }

    /// The nearest position that somebody has, if it is nearer than the goal, and its gap; else the gap of the goal.
    fn nearest(&self) -> Nearest
        requires gaps { All (IsWithin gap_span) self.now.gaps }
        requires limit { IsWithin gap_span self.now.limit }
        ensures known { (count : ℕ) → AreBelow count self.now.ahead → IfSome result.position (λ position. position < count) }
        ensures near { IsWithin gap_span result.gap }
        ensures limit { result.gap ≤ℤ self.now.limit }
        ensures least { (other : ℕ) → has self.now.ahead other ≡ true → result.gap ≤ℤ gap_at self.now.gaps other }
    {
        let mut gap = self.limit;
        let mut position = None;
        let mut rest = self.ahead;
        while let Some(other) = rest.first() {
            rest = rest.without(other);
            let other_gap = self.gaps[usize::from(other)];
            if other_gap < gap {
                gap = other_gap;
                position = Some(other);
            }
        }
        Nearest { position, gap }
    }

    /// Lowers the prices of the positions that were reached.
    fn lower_reached(&self, prices: &mut Prices, by: i64)
        requires sound { AreSound prices.old }
        requires reached { AreBelow (length prices.old.influences.items) self.now.reached }
        requires not_up { pos 0 ≤ℤ by }
        requires room { (position : ℕ) → has self.now.reached position ≡ true
            → by ≤ℤ (price_at prices.old.places.items position +ℤ pos place_span) }
        ensures { AreLowered by self.now.reached prices.old prices.new }
    {
        let mut rest = self.reached;
        while let Some(position) = rest.first() {
            rest = rest.without(position);
            prices.lower(position, by);
        }
    }

    /// Raises the prices of the members.
    fn lift_members(&self, prices: &mut Prices, by: i64)
        requires sound { AreSound prices.old }
        requires members { AreBelow (length prices.old.candidates.items) self.now.members }
        requires not_down { pos 0 ≤ℤ by }
        requires room { (number : ℕ) → has self.now.members number ≡ true
            → (price_at prices.old.items.items number +ℤ by) ≤ℤ pos item_span }
        requires bound { (number position : ℕ) → has self.now.members number ≡ true → IsOpen prices.old number position
            → ((price_at prices.old.items.items number +ℤ by) +ℤ price_at prices.old.places.items position)
            ≤ℤ cost_at (table prices.old.candidates.items prices.old.influences.items) number position }
        ensures { AreLifted by self.now.members prices.old prices.new }
    {
        let mut rest = self.members;
        while let Some(number) = rest.first() {
            rest = rest.without(number);
            prices.lift(number, by);
        }
    }

    /// Moves prices until the gap is none, or as far as there is room. False where that is less far.
    fn approach(&mut self, prices: &mut Prices, gap: i64) -> bool
        requires sound { AreSound prices.old }
        requires tree { IsTree prices.old self.old }
        requires near { IsWithin gap_span gap }
        requires limit { gap ≤ℤ self.old.limit }
        requires least { (position : ℕ) → has self.old.ahead position ≡ true → gap ≤ℤ gap_at self.old.gaps position }
        ensures moved { AreMoved prices.old prices.new }
        ensures tree { IsTree prices.new self.new }
    {
        if gap == self.moved {
            return true;
        }
        let way = gap - self.moved;
        let by = up_to(way, self.room);
        self.lower_reached(prices, by);
        self.lift_members(prices, by);
        self.moved += by;
        self.room -= by;
        by == way
    }

    /// Takes in a position that is ahead.
    fn reach(&mut self, prices: &Prices, position: u8)
        requires sound { AreSound prices.now }
        requires position { position < length prices.now.influences.items }
        requires tree { IsTree prices.now self.old }
        ensures { IsTree prices.now self.new }
    {
        self.ahead = self.ahead.without(position);
        self.reached = self.reached.with(position);
        self.room = lesser(
            self.room,
            prices.places[usize::from(position)] - LEAST_PLACE,
        );
    }
}

/// Gives a candidate without a position one, and others others. False where it finds none: then prices have moved as
/// far as there was room.
pub fn enter(prices: &mut Prices, seats: &mut Seats, first: u8) -> bool
    requires sound { AreSound prices.old }
    requires seated { AreSeated (length prices.old.candidates.items) seats.old }
    requires first { first < length prices.old.candidates.items }
    ensures moved { AreMoved prices.old prices.new }
    ensures seated { AreSeated (length prices.old.candidates.items) seats.new }
{
    let mut tree = Tree::new(first);
    let mut number = first;
    for _ in 0..MOST_POSITIONS {
        tree.join(prices, seats, number);
        let nearest = tree.nearest();
        if !tree.approach(prices, nearest.gap) {
            return false;
        }
        let Some(position) = nearest.position else {
            return seats.take(&tree.from, tree.goal);
        };
        tree.reach(prices, position);
        let Some(holder) = seats.holders[usize::from(position)] else {
            return false;
        };
        number = holder;
    }
    false
}
