//! The candidates from which the next candidate might take a position, each for another of theirs.

ghost use Rattle.std.specs.Prelude.{◌≡◌, ◌+◌, ◌-◌, ◌<◌, ◌+ℤ◌, ◌-ℤ◌, ◌*ℤ◌, false, length};
ghost use Rattle.position_set.specs.Sets.{has};
ghost use Rattle.assignment.specs.declared.standing.Standing.{Standing};
ghost use Rattle.assignment.specs.Costs.{IsOrdinary};
ghost use Rattle.assignment.specs.Tables.{number_at, IsWithin};
ghost use Rattle.assignment.specs.Standings.{IsSettled, IsTight, greatest_cost, price_span};
ghost use Rattle.assignment.specs.Trees.{IsTree, AreGaps, IsSeeker, IsMeasured, IsLessGap, IsNearer, IsNearest, IsNearestBelow, JoinsAt};

use crate::standing::Standing;
use arrayvec::ArrayVec;
use position_set::PositionSet;

/// How much more a position costs a member than their prices, and how far prices had moved when that was so; and which
/// member it costs so much, by its place among the members.
#[derive(Clone, Copy)]
pub struct Gap {
    pub key: i64,
    pub member: u8,
}

/// A position that was not reached, with its gap.
#[derive(Clone, Copy)]
pub struct Nearest {
    pub position: u8,
    pub gap: Gap,
}

/// A tree of candidates. Each member but the first stands on a position that costs an earlier member just what their
/// prices are.
#[derive(Drop)]
pub struct Tree {
    /// The members in the order in which they joined.
    pub members: ArrayVec<u8, 60>,
    /// The place of the member from which each member was reached.
    pub from: ArrayVec<u8, 60>,
    /// The positions on which members stand.
    pub reached: PositionSet,
    /// The least gap of each position to a member.
    pub gaps: [Option<Gap>; 64],
    /// How far the prices of the first member moved.
    pub moved: i64,
}

/// A member that looks for positions: its place, its mass in kilograms, where it may stand, and how far prices moved
/// less its own.
#[derive(Clone, Copy)]
pub struct Seeker {
    pub member: u8,
    pub mass: i64,
    pub open: PositionSet,
    pub offset: i64,
}

/// The less of two gaps.
fn less_gap(old: Option<Gap>, new: Gap) -> Gap
    ensures { IsLessGap old new result }
{
    match old {
        Some(gap) => { if gap.key <= new.key { gap } else { new } }
        None => new,
    }
}

/// The nearer of the nearest position so far and of one more.
fn nearer(old: Option<Nearest>, position: u8, gap: Option<Gap>) -> Option<Nearest>
    ensures { IsNearer old position gap result }
{
    let Some(gap) = gap else {
        return old;
    };
    match old {
        Some(nearest) => {
            if nearest.gap.key <= gap.key {
                Some(nearest)
            } else {
                Some(Nearest { position, gap })
            }
        }
        None => Some(Nearest { position, gap }),
    }
}

impl Seeker {
    /// The gap of a position on which this member may stand too.
    fn measure(&self, old: Option<Gap>, position: u8, influence: i64, price: i64) -> Option<Gap>
        requires position { position < 64 }
        requires cost { IsWithin greatest_cost (self.now.mass *ℤ influence) }
        requires offset { IsWithin 2000000000000 self.now.offset }
        requires price { IsWithin price_span price }
        ensures { IsMeasured (has self.now.open position)
            (record { key = (self.now.offset +ℤ self.now.mass *ℤ influence) -ℤ price; member = self.now.member }) old result }
    {
        if self.open.contains(position) {
            let key = self.offset + self.mass * influence - price;
            let member = self.member;
            Some(less_gap(old, Gap { key, member }))
        } else {
            old
        }
    }
}

impl Tree {
    /// The tree of the first candidate without a position.
    pub fn new(standing: &Standing) -> Tree
        requires ordinary { IsOrdinary standing.now.costs.candidates.now standing.now.costs.influences.now }
        requires settled { IsSettled standing.now.costs standing.now.items.items standing.now.places.items standing.now.stands.items }
        requires room { length standing.now.stands.items < length standing.now.costs.candidates.now }
        ensures tree { IsTree standing.now result }
        ensures gaps { AreGaps standing.now result 0 }
        ensures members { length result.members.items ≡ 1 }
    {
        let mut members = ArrayVec::new();
        members.push(standing.stands.len() as u8);
        let mut from = ArrayVec::new();
        from.push(0);
        Tree {
            members,
            from,
            reached: PositionSet::empty(),
            gaps: [None; 64],
            moved: 0,
        }
    }

    /// The member that joined last.
    fn newest(&self, standing: &Standing) -> Seeker
        requires { IsTree standing.now self.now }
        ensures { IsSeeker standing.now.costs standing.now.items.items self.now.members.items (length self.now.members.items - 1) self.now.moved result }
    {
        let place = self.members.len() - 1;
        let number = self.members[place];
        let candidate = standing.costs.candidate(number);
        Seeker {
            member: place as u8,
            mass: i64::from(candidate.mass),
            open: candidate.open,
            offset: self.moved - standing.items[usize::from(number)],
        }
    }

    /// Measures the gaps of the newest member, and says which position is nearest.
    pub fn nearest(&mut self, standing: &Standing) -> Option<Nearest>
        requires tree { IsTree standing.now self.old }
        requires gaps { AreGaps standing.now self.old (length self.old.members.items - 1) }
        ensures tree { IsTree standing.now self.new }
        ensures gaps { AreGaps standing.now self.new (length self.old.members.items) }
        ensures members { self.new.members.items ≡ self.old.members.items }
        ensures nearest { IsNearestBelow self.new.gaps self.new.reached (length standing.now.costs.influences.now) result }
    {
        let newest = self.newest(standing);
        let mut nearest = None;
        for position in 0..standing.costs.influences.len() {
            let number = position as u8;
            if !self.reached.contains(number) {
                let influence = standing.costs.influence(number);
                let gap = newest.measure(
                    self.gaps[position],
                    number,
                    influence,
                    standing.places[position],
                );
                self.gaps[position] = gap;
                nearest = nearer(nearest, number, gap);
            }
        }
        nearest
    }

    /// Moves the prices until the nearest position costs just what they are.
    pub fn approach(&mut self, standing: &mut Standing, nearest: &Nearest)
        requires tree { IsTree standing.old self.old }
        requires gaps { AreGaps standing.old self.old (length self.old.members.items) }
        requires nearest { IsNearest self.old.gaps self.old.reached (length standing.old.costs.influences.now) nearest.now }
        ensures tree { IsTree standing.new self.new }
        ensures gaps { AreGaps standing.new self.new (length self.old.members.items) }
        ensures members { self.new.members.items ≡ self.old.members.items }
        ensures known { nearest.now.gap.member < length self.old.members.items }
        ensures fresh { has self.new.reached nearest.now.position ≡ false }
        ensures tight { IsTight standing.new.costs standing.new.items.items standing.new.places.items
            (number_at self.new.members.items nearest.now.gap.member) nearest.now.position }
        ensures costs { standing.new.costs ≡ standing.old.costs }
        ensures stands { standing.new.stands.items ≡ standing.old.stands.items }
    {
        standing.move_prices(self.members.as_slice(), nearest.gap.key - self.moved);
        self.moved = nearest.gap.key;
    }

    /// Takes in who stands on the nearest position.
    pub fn join(&mut self, nearest: &Nearest, holder: u8)
        requires room { length self.old.members.items < 60 }
        requires paired { length self.old.from.items < 60 }
        requires position { nearest.now.position < 64 }
        ensures tree { (standing : Standing) → IsTree standing self.old → JoinsAt standing self.old nearest.now holder → IsTree standing self.new }
        ensures gaps { (standing : Standing) → AreGaps standing self.old (length self.old.members.items) → AreGaps standing self.new (length self.old.members.items) }
        ensures longer { length self.new.members.items ≡ length self.old.members.items + 1 }
    {
        self.members.push(holder);
        self.from.push(nearest.gap.member);
        self.reached = self.reached.with(nearest.position);
    }
}
