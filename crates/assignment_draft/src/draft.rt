//! Drafts of assignments.

ghost use Rattle.std.specs.Prelude.{◌≡◌, ◌<◌, ◌∷◌, ◌≤◌, ◌≤ℤ◌, ℕ, List, IfSome, length, unsigned_abs};
ghost use Rattle.assignment.specs.Ways.{IsWay, cost_of};
ghost use Rattle.assignment.specs.Costs.{MayStand, IsOrdinary, cost_in};
ghost use Rattle.assignment_draft.specs.Drafts.{AreMoved, AreSeated, AreSound};

use crate::prices::Prices;
use crate::search::enter;
use crate::seats::Seats;
use assignment::Candidate;
use position_set::PositionSet;
use std::marker::Model;

/// Prices of candidates and of positions, in ticks, that bound what every way costs from below, and positions of their
/// own for candidates.
#[derive(Drop)]
pub struct Draft {
    prices: Prices,
    seats: Seats,
    /// All prices together.
    total: i64,
}

impl Model for Draft {
    ghost use Rattle.assignment_draft.specs.Drafts.{Work, IsDraft};

    ghost Value = { Work };

    ghost view = { λ d. record { candidates = d.prices.candidates.items; influences = d.prices.influences.items } };

    ghost invariant = { λ d. IsDraft d.prices d.seats d.total };
}

/// Raises the price of each position that nobody has and that has one below 0.
fn raise_free(prices: &mut Prices, seats: &Seats)
    requires { AreSound prices.old }
    ensures { AreMoved prices.old prices.new }
{
    for position in 0..prices.places.len() {
        if prices.places[position] < 0 && seats.holders[position].is_none() {
            prices.raise(position as u8);
        }
    }
}

/// Gives each candidate without a position one, as long as there is any.
fn seat_all(prices: &mut Prices, seats: &mut Seats)
    requires sound { AreSound prices.old }
    requires seated { AreSeated (length prices.old.candidates.items) seats.old }
    ensures moved { AreMoved prices.old prices.new }
    ensures seated { AreSeated (length prices.old.candidates.items) seats.new }
{
    for number in 0..prices.candidates.len() {
        if seats.stands[number].is_none() {
            if !enter(prices, seats, number as u8) {
                return;
            }
        }
    }
}

/// Raises prices, and gives each candidate without a position one, as long as there is any.
fn complete(prices: &mut Prices, seats: &mut Seats)
    requires sound { AreSound prices.old }
    requires seated { AreSeated (length prices.old.candidates.items) seats.old }
    ensures moved { AreMoved prices.old prices.new }
    ensures seated { AreSeated (length prices.old.candidates.items) seats.new }
{
    raise_free(prices, seats);
    seat_all(prices, seats);
}

impl Draft {
    /// The draft from nothing.
    pub fn new(candidates: &[Candidate], influences: &[i64]) -> Draft
        requires { IsOrdinary candidates.now influences.now }
        ensures candidates { result.candidates ≡ candidates.now }
        ensures influences { result.influences ≡ influences.now }
    {
        let mut prices = Prices::new(candidates, influences);
        let mut seats = Seats::new(candidates.len());
        complete(&mut prices, &mut seats);
        let total = prices.total();
        Draft {
            prices,
            seats,
            total,
        }
    }

    /// The draft of these candidates, if they are those after the first one of this draft, and no position is open for
    /// one that was not open before. Each keeps its position where that is still open, and the others get one if there is
    /// any.
    #[inline(always)]
    pub fn after_first(&self, candidates: &[Candidate]) -> Option<Draft>
        ensures candidates { IfSome result (λ draft. draft.candidates ≡ candidates.now) }
        ensures influences { IfSome result (λ draft. draft.influences ≡ self.now.influences) }
    {
        if !self.prices.is_followed_by(candidates) {
            return None;
        }
        let mut prices = self.prices.after_first(candidates);
        let mut seats = self.seats.after_first(candidates);
        complete(&mut prices, &mut seats);
        let total = prices.total();
        Some(Draft {
            prices,
            seats,
            total,
        })
    }

    /// All prices together, in ticks: no way costs less.
    pub fn least(&self) -> i64
        ensures least { (way : List ℕ) → IsWay MayStand self.now.candidates way
            → result ≤ℤ cost_of (cost_in self.now.influences) self.now.candidates way }
        ensures bounded { unsigned_abs result ≤ 2000000000000000 }
    {
        self.total
    }

    /// What no way costs less than that gives the first candidate this position, in ticks.
    pub fn least_on(&self, position: u8) -> i64
        requires known { position < 64 }
        ensures least { (rest : List ℕ) → IsWay MayStand self.now.candidates (position ∷ rest)
            → result ≤ℤ cost_of (cost_in self.now.influences) self.now.candidates (position ∷ rest) }
        ensures bounded { unsigned_abs result ≤ 2000000000000000 }
    {
        let known = usize::from(position) < self.prices.influences.len();
        if self.prices.candidates.is_empty() || !known {
            return self.total;
        }
        self.total - self.prices.first_on(position) + self.prices.cost(0, position)
    }

    /// What the way costs that the draft has, in ticks. None where it has none.
    pub fn way_cost(&self) -> Option<i64>
        ensures way { IfSome result (λ cost. (way : List ℕ) × IsWay MayStand self.now.candidates way
            × (cost_of (cost_in self.now.influences) self.now.candidates way ≡ cost)) }
        ensures bounded { IfSome result (λ cost. unsigned_abs cost ≤ 2000000000000000) }
    {
        let mut taken = PositionSet::empty();
        let mut cost = 0;
        for number in 0..self.prices.candidates.len() {
            let position = self.seats.stands[number]?;
            if taken.contains(position) || !self.prices.candidates[number].open.contains(position) {
                return None;
            }
            taken = taken.with(position);
            cost += self.prices.cost(number as u8, position);
        }
        Some(cost)
    }
}
