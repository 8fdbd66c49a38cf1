//! Prices with positions that cost some candidates just what the prices are.

ghost use Rattle.std.specs.Prelude.{◌≡◌, ◌+◌, ◌<◌, ◌≤◌, ℕ, MatchOption, length, All};
ghost use Rattle.assignment.specs.declared.costs.CostTable.{CostTable};
ghost use Rattle.assignment.specs.Costs.{IsOrdinary};
ghost use Rattle.assignment.specs.Tables.{number_at, Lacks, IsWithin};
ghost use Rattle.assignment.specs.Standings.{AreMoved, CanMove, IsSettled, IsStanding, IsTight, price_span};
ghost use Rattle.assignment.specs.Trees.{AreBranches};

use crate::costs::CostTable;
use arrayvec::ArrayVec;

/// Less than any candidate costs on any position, in ticks.
const LEAST_COST: i64 = -2_000_000_000;

/// Prices of all candidates and of all positions, and the positions of the first candidates, in their order.
#[derive(Drop)]
pub struct Standing<'a> {
    pub costs: CostTable<'a>,
    pub items: ArrayVec<i64, 60>,
    pub places: ArrayVec<i64, 64>,
    pub stands: ArrayVec<u8, 60>,
}

/// A list of one price again and again.
fn repeated<const N: usize>(count: usize, price: i64) -> ArrayVec<i64, N>
    requires { count ≤ N }
    ensures count { length result.items ≡ count }
    ensures each { All (λ entry. entry ≡ price) result.items }
{
    let mut prices = ArrayVec::new();
    for _ in 0..count {
        prices.push(price);
    }
    prices
}

/// Raises the prices of the members, and lowers those of the positions on which all but the first of them stand.
fn shift(items: &mut [i64], places: &mut [i64], stands: &[u8], members: &[u8], by: i64)
    requires movable { CanMove items.old places.old stands.now members.now }
    requires by { IsWithin price_span by }
    ensures { AreMoved by stands.now members.now (length members.now) items.old places.old items.new places.new }
{
    items[usize::from(members[0])] += by;
    for place in 1..members.len() {
        let member = usize::from(members[place]);
        let position = usize::from(stands[member]);
        items[member] += by;
        places[position] -= by;
    }
}

/// Who stands on the position.
fn holder_of(stands: &[u8], position: u8) -> Option<u8>
    requires { length stands.now ≤ 60 }
    ensures { MatchOption result (Lacks stands.now position)
        (λ number. (number < length stands.now) × (number_at stands.now number ≡ position)) }
{
    for (number, stand) in stands.iter().enumerate() {
        if *stand == position {
            return Some(number as u8);
        }
    }
    None
}

impl<'a> Standing<'a> {
    /// No candidate has a position yet.
    pub fn new(costs: CostTable<'a>) -> Standing<'a>
        requires { IsOrdinary costs.candidates.now costs.influences.now }
        ensures costs { result.costs ≡ costs.entry }
        ensures settled { IsSettled result.costs result.items.items result.places.items result.stands.items }
        ensures none { length result.stands.items ≡ 0 }
    {
        Standing {
            costs,
            items: repeated(costs.candidates.len(), LEAST_COST),
            places: repeated(costs.influences.len(), 0),
            stands: ArrayVec::new(),
        }
    }

    /// Moves the prices of the members by so many ticks against those of the positions on which they stand.
    pub fn move_prices(&mut self, members: &[u8], by: i64)
        requires movable { CanMove self.old.items.items self.old.places.items self.old.stands.items members.now }
        requires by { IsWithin price_span by }
        ensures moved { AreMoved by self.old.stands.items members.now (length members.now)
            self.old.items.items self.old.places.items self.new.items.items self.new.places.items }
        ensures stands { self.new.stands.items ≡ self.old.stands.items }
        ensures costs { self.new.costs ≡ self.old.costs }
    {
        shift(
            self.items.as_mut_slice(),
            self.places.as_mut_slice(),
            self.stands.as_slice(),
            members,
            by,
        );
    }

    /// Who stands on the position.
    pub fn holder(&self, position: u8) -> Option<u8>
        ensures { MatchOption result (Lacks self.now.stands.items position)
            (λ number. (number < length self.now.stands.items) × (number_at self.now.stands.items number ≡ position)) }
    {
        holder_of(self.stands.as_slice(), position)
    }

    /// Gives the position to the member, the position that this one had to the member from which it was reached, and so
    /// on to the first member, which had none.
    pub fn augment(&mut self, members: &[u8], from: &[u8], position: u8, member: u8)
        requires member { member < length members.now }
        requires paired { length from.now ≡ length members.now }
        requires entered { (j : ℕ) → 0 < j → j < length members.now → number_at members.now j < length self.old.stands.items }
        requires earlier { (j : ℕ) → 0 < j → j < length members.now → number_at from.now j < j }
        requires room { length self.old.stands.items < 60 }
        ensures settled { (costs : CostTable)
            → IsStanding costs self.old.items.items self.old.places.items self.old.stands.items
            → AreBranches costs self.old.items.items self.old.places.items self.old.stands.items members.now from.now
            → IsTight costs self.old.items.items self.old.places.items (number_at members.now member) position
            → Lacks self.old.stands.items position → length self.old.stands.items < length costs.candidates.now
            → IsStanding costs self.new.items.items self.new.places.items self.new.stands.items }
        ensures longer { length self.new.stands.items ≡ length self.old.stands.items + 1 }
        ensures items { self.new.items.items ≡ self.old.items.items }
        ensures places { self.new.places.items ≡ self.old.places.items }
        ensures costs { self.new.costs ≡ self.old.costs }
    {
        let mut hole = position;
        let mut place = usize::from(member);
        while place > 0 {
            let number = usize::from(members[place]);
            let left = self.stands[number];
            self.stands[number] = hole;
            hole = left;
            place = usize::from(from[place]);
        }
        self.stands.push(hole);
    }
}
