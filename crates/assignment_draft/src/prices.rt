//! Prices that bound what every way costs from below, and the three steps by which they move.

ghost use Rattle.std.specs.Prelude.{◌≡◌, [], ◌<◌, ◌≤◌, ℕ, ℤ, pos, ◌+ℤ◌, ◌-ℤ◌, ◌≤ℤ◌, IsTrue, All, length, set};
ghost use Rattle.assignment.specs.Costs.{IsOrdinary};
ghost use Rattle.assignment.specs.Prices.{price_at, total};
ghost use Rattle.assignment.specs.Tables.{IsWithin, MayTake, cost_at};
ghost use Rattle.assignment.specs.Standings.{greatest_cost};
ghost use Rattle.assignment_draft.specs.Drafts.{AreAfterFirst, AreMoved, AreSound, item_span, place_span, table};

use arrayvec::ArrayVec;
use assignment::Candidate;

/// Less than any candidate costs on any position, in ticks.
const LEAST_COST: i64 = -2_000_000_000;

/// Candidates, the ticks that a kilogram adds on each position, and prices of all of them.
#[derive(Drop)]
pub struct Prices {
    pub candidates: ArrayVec<Candidate, 60>,
    pub influences: ArrayVec<i64, 64>,
    pub items: ArrayVec<i64, 60>,
    pub places: ArrayVec<i64, 64>,
}

/// A list of one price again and again.
fn repeated<const N: usize>(count: usize, price: i64) -> ArrayVec<i64, N>
    requires { count ≤ N }
    ensures count { length result.items ≡ count }
    ensures each { All (λ entry. entry ≡ price) result.items }
{
    let mut prices = ArrayVec::new();
    for _ in 0..count {
        prices.push(price);
    }
    prices
}

/// Puts these values into an empty list.
fn fill<T: Copy, const N: usize>(list: &mut ArrayVec<T, N>, values: &[T])
    requires empty { list.old.items ≡ [] }
    requires room { length values.now ≤ N }
    ensures { list.new.items ≡ values.now }
{
    if list.try_extend_from_slice(values).is_err() {
        unreachable!();
    }
}

/// The lesser of two numbers.
pub fn lesser(one: i64, other: i64) -> i64
    ensures one { result ≤ℤ one }
    ensures other { result ≤ℤ other }
    ensures greatest { (bound : ℤ) → bound ≤ℤ one → bound ≤ℤ other → bound ≤ℤ result }
{
    if one < other { one } else { other }
}

/// All prices of a list together.
fn sum_of(prices: &[i64]) -> i64
    requires few { length prices.now ≤ 64 }
    requires near { (number : ℕ) → IsWithin item_span (price_at prices.now number) }
    ensures total { result ≡ total prices.now }
    ensures near { IsWithin 70000000000000 result }
{
    let mut sum = 0;
    for price in prices {
        sum += *price;
    }
    sum
}

impl Prices {
    /// No prices yet.
    fn empty() -> Prices
        ensures candidates { result.candidates.items ≡ [] }
        ensures influences { result.influences.items ≡ [] }
        ensures items { result.items.items ≡ [] }
        ensures places { result.places.items ≡ [] }
    {
        Prices {
            candidates: ArrayVec::new(),
            influences: ArrayVec::new(),
            items: ArrayVec::new(),
            places: ArrayVec::new(),
        }
    }

    /// Prices below all that candidates cost.
    pub fn new(candidates: &[Candidate], influences: &[i64]) -> Prices
        requires { IsOrdinary candidates.now influences.now }
        ensures candidates { result.candidates.items ≡ candidates.now }
        ensures influences { result.influences.items ≡ influences.now }
        ensures sound { AreSound result }
    {
        let mut prices = Prices::empty();
        fill(&mut prices.candidates, candidates);
        fill(&mut prices.influences, influences);
        prices.items = repeated(candidates.len(), LEAST_COST);
        prices.places = repeated(influences.len(), 0);
        prices
    }

    /// Whether the candidates are those after the first one, and no position is open for one that was not open before.
    pub fn is_followed_by(&self, candidates: &[Candidate]) -> bool
        ensures { IsTrue result → AreAfterFirst self.now.candidates.items candidates.now }
    {
        let own = self.candidates.as_slice();
        if own.is_empty() || own.len() - 1 != candidates.len() {
            return false;
        }
        for number in 0..candidates.len() {
            let before = own[number + 1];
            let candidate = candidates[number];
            if candidate.mass != before.mass || !candidate.open.difference(before.open).is_empty() {
                return false;
            }
        }
        true
    }

    /// The same prices without that of the first candidate.
    #[inline(always)]
    pub fn after_first(&self, candidates: &[Candidate]) -> Prices
        requires sound { AreSound self.now }
        requires followed { AreAfterFirst self.now.candidates.items candidates.now }
        ensures candidates { result.candidates.items ≡ candidates.now }
        ensures influences { result.influences.items ≡ self.now.influences.items }
        ensures sound { AreSound result }
    {
        let mut prices = Prices::empty();
        fill(&mut prices.candidates, candidates);
        fill(&mut prices.influences, self.influences.as_slice());
        fill(&mut prices.items, &self.items[1..]);
        fill(&mut prices.places, self.places.as_slice());
        prices
    }

    /// What a candidate costs on a position, in ticks.
    pub fn cost(&self, number: u8, position: u8) -> i64
        requires sound { AreSound self.now }
        requires number { number < length self.now.candidates.items }
        requires position { position < length self.now.influences.items }
        ensures value { result ≡ cost_at (table self.now.candidates.items self.now.influences.items) number position }
        ensures near { IsWithin greatest_cost result }
    {
        i64::from(self.candidates[usize::from(number)].mass)
            * self.influences[usize::from(position)]
    }

    /// The greatest price that the position may have beside those of the candidates.
    fn greatest_place(&self, position: u8) -> i64
        requires sound { AreSound self.now }
        requires position { position < length self.now.influences.items }
        ensures bound { (number : ℕ) → MayTake (table self.now.candidates.items self.now.influences.items) number position
            → (price_at self.now.items.items number +ℤ result) ≤ℤ cost_at (table self.now.candidates.items self.now.influences.items) number position }
        ensures at_least { price_at self.now.places.items position ≤ℤ result }
        ensures at_most { result ≤ℤ pos 0 }
    {
        let mut greatest = 0;
        for number in 0..self.candidates.len() {
            if self.candidates[number].open.contains(position) {
                let most = self.cost(number as u8, position) - self.items[number];
                greatest = lesser(greatest, most);
            }
        }
        greatest
    }

    /// Gives the position the greatest price that it may have.
    pub fn raise(&mut self, position: u8)
        requires sound { AreSound self.old }
        requires position { position < length self.old.influences.items }
        ensures { AreMoved self.old self.new }
    {
        let greatest = self.greatest_place(position);
        self.places[usize::from(position)] = greatest;
    }

    /// Lowers the price of the position by so many ticks.
    pub fn lower(&mut self, position: u8, by: i64)
        requires sound { AreSound self.old }
        requires position { position < length self.old.influences.items }
        requires not_up { pos 0 ≤ℤ by }
        requires room { by ≤ℤ (price_at self.old.places.items position +ℤ pos place_span) }
        ensures moved { AreMoved self.old self.new }
        ensures items { self.new.items ≡ self.old.items }
        ensures places { self.new.places.items
            ≡ set self.old.places.items position (price_at self.old.places.items position -ℤ by) }
    {
        self.places[usize::from(position)] -= by;
    }

    /// Raises the price of the candidate by so many ticks.
    pub fn lift(&mut self, number: u8, by: i64)
        requires sound { AreSound self.old }
        requires number { number < length self.old.candidates.items }
        requires not_down { pos 0 ≤ℤ by }
        requires room { (price_at self.old.items.items number +ℤ by) ≤ℤ pos item_span }
        requires bound { (position : ℕ) → MayTake (table self.old.candidates.items self.old.influences.items) number position
            → ((price_at self.old.items.items number +ℤ by) +ℤ price_at self.old.places.items position)
            ≤ℤ cost_at (table self.old.candidates.items self.old.influences.items) number position }
        ensures moved { AreMoved self.old self.new }
        ensures places { self.new.places ≡ self.old.places }
        ensures items { self.new.items.items
            ≡ set self.old.items.items number (price_at self.old.items.items number +ℤ by) }
    {
        self.items[usize::from(number)] += by;
    }

    /// All prices together.
    pub fn total(&self) -> i64
        requires { AreSound self.now }
        ensures total { result ≡ total self.now.items.items +ℤ total self.now.places.items }
        ensures near { IsWithin 200000000000000 result }
    {
        sum_of(self.items.as_slice()) + sum_of(self.places.as_slice())
    }

    /// The prices of the first candidate and of a position together.
    pub fn first_on(&self, position: u8) -> i64
        requires sound { AreSound self.now }
        requires some { 0 < length self.now.candidates.items }
        requires position { position < length self.now.influences.items }
        ensures prices { result ≡ price_at self.now.items.items 0 +ℤ price_at self.now.places.items position }
        ensures near { IsWithin 3000000000000 result }
    {
        self.items[0] + self.places[usize::from(position)]
    }
}
