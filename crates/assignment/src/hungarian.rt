//! The cheapest way to give each candidate a position of its own.

ghost use Rattle.std.specs.Prelude.{◌≡◌, ◌+◌, ◌<◌, ◌≤◌, ℕ, pos, ◌+ℤ◌, ◌≤ℤ◌, List, All, IfSome, IfNone, IsTrue, false, length, unsigned_abs};
ghost use Rattle.assignment.specs.Ways.{IsWay, cost_of};
ghost use Rattle.assignment.specs.Prices.{AreLowerPrices, total};
ghost use Rattle.assignment.specs.Costs.{MayStand, IsOrdinary, cost_in};
ghost use Rattle.assignment.specs.Standings.{AreBeyond, IsSettled};

use crate::candidate::Candidate;
use crate::costs::CostTable;
use crate::standing::Standing;
use crate::tree::Tree;
use arrayvec::ArrayVec;

/// More than two ways can differ by, in ticks.
const BEYOND: i64 = 1_000_000_000_000;

/// The most members of a tree.
const MOST_MEMBERS: usize = 60;

/// Prices of candidates and of positions in ticks, and a way that costs as much as all of them together, if there is one:
/// the positions of the candidates, in the order of these.
#[derive(Drop)]
pub struct Assignment {
    pub items: ArrayVec<i64, 60>,
    pub places: ArrayVec<i64, 64>,
    pub way: Option<ArrayVec<u8, 60>>,
}

/// Gives the next candidate a position too, and others others. False, with prices beyond any way, where there is none.
fn enter(standing: &mut Standing) -> bool
    requires ordinary { IsOrdinary standing.old.costs.candidates.now standing.old.costs.influences.now }
    requires settled { IsSettled standing.old.costs standing.old.items.items standing.old.places.items standing.old.stands.items }
    requires room { length standing.old.stands.items < length standing.old.costs.candidates.now }
    ensures costs { standing.new.costs ≡ standing.old.costs }
    ensures settled { IsTrue result → IsSettled standing.old.costs standing.new.items.items standing.new.places.items standing.new.stands.items }
    ensures longer { IsTrue result → length standing.new.stands.items ≡ length standing.old.stands.items + 1 }
    ensures beyond { result ≡ false → AreBeyond standing.old.costs standing.new.items.items standing.new.places.items }
{
    let mut tree = Tree::new(standing);
    for _ in 0..MOST_MEMBERS {
        let Some(nearest) = tree.nearest(standing) else {
            standing.move_prices(tree.members.as_slice(), BEYOND);
            return false;
        };
        tree.approach(standing, &nearest);
        match standing.holder(nearest.position) {
            Some(holder) => tree.join(&nearest, holder),
            None => {
                let member = nearest.gap.member;
                standing.augment(
                    tree.members.as_slice(),
                    tree.from.as_slice(),
                    nearest.position,
                    member,
                );
                return true;
            }
        }
    }
    unreachable!()
}

/// The cheapest way to give each candidate a position of its own, with prices that show that no way costs less. Where there
/// is no way, prices that together no way could cost. An influence is what a kilogram adds on a position, in ticks.
pub fn cheapest(candidates: &[Candidate], influences: &[i64]) -> Assignment
    requires ordinary { IsOrdinary candidates.now influences.now }
    ensures prices { AreLowerPrices MayStand (cost_in influences.now) candidates.now result.items.items result.places.items }
    ensures one_each { length result.places.items ≡ length influences.now }
    ensures bounded_items { All (λ price. unsigned_abs price ≤ 10000000000000) result.items.items }
    ensures bounded_places { All (λ price. unsigned_abs price ≤ 10000000000000) result.places.items }
    ensures way { IfSome result.way (λ way. IsWay MayStand candidates.now way.items) }
    ensures tight { IfSome result.way (λ way. cost_of (cost_in influences.now) candidates.now way.items
        ≡ total result.items.items +ℤ total result.places.items) }
    ensures none { IfNone result.way ((way : List ℕ) → IsWay MayStand candidates.now way → ⊥) }
    ensures beyond { IfNone result.way (pos 500000000000 ≤ℤ (total result.items.items +ℤ total result.places.items)) }
{
    let costs = CostTable {
        candidates,
        influences,
    };
    let mut standing = Standing::new(costs);
    for _ in 0..candidates.len() {
        if !enter(&mut standing) {
            return Assignment {
                items: standing.items,
                places: standing.places,
                way: None,
            };
        }
    }
    Assignment {
        items: standing.items,
        places: standing.places,
        way: Some(standing.stands),
    }
}
