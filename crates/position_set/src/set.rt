//! Sets of positions. A hold has at most 64, so that a set of them fits one machine word.

ghost use Rattle.std.specs.Prelude.{◌≡◌, ◌↔◌, ◌<◌, ◌≤◌, ◌∷◌, [], ◌&&◌, ◌||◌, ◌==◌, ℕ, length, not, true, false, IsTrue, MatchOption};
ghost use Rattle.position_set.specs.Sets.{has, members};

/// A set of numbers below 64.
#[derive(Clone, Copy, Debug, Default, PartialEq, Eq)]
pub struct PositionSet(u64);

impl PositionSet {
    /// The set of no number.
    pub fn empty() -> PositionSet
        ensures { (q : ℕ) → has result q ≡ false }
    {
        PositionSet(0)
    }

    /// Whether the number is in the set.
    pub fn contains(self, number: u8) -> bool
        requires { number < 64 }
        ensures { result ≡ has self number }
    {
        self.0 >> number & 1 == 1
    }

    /// The set with one number more.
    pub fn with(self, number: u8) -> PositionSet
        requires { number < 64 }
        ensures { (q : ℕ) → has result q ≡ (has self q || (q == number)) }
    {
        PositionSet(self.0 | 1 << number)
    }

    /// The set with one number more where it passes a test.
    pub fn with_if(self, number: u8, passes: bool) -> PositionSet
        requires { number < 64 }
        ensures { (q : ℕ) → has result q ≡ (has self q || (passes && (q == number))) }
    {
        if passes { self.with(number) } else { self }
    }

    /// The numbers of either set.
    pub fn union(self, other: PositionSet) -> PositionSet
        ensures { (q : ℕ) → has result q ≡ (has self q || has other q) }
    {
        PositionSet(self.0 | other.0)
    }

    /// The numbers of both sets.
    pub fn intersection(self, other: PositionSet) -> PositionSet
        ensures { (q : ℕ) → has result q ≡ (has self q && has other q) }
    {
        PositionSet(self.0 & other.0)
    }

    /// The numbers of the set that are not in the other.
    pub fn difference(self, other: PositionSet) -> PositionSet
        ensures { (q : ℕ) → has result q ≡ (has self q && not (has other q)) }
    {
        PositionSet(self.0 & !other.0)
    }

    /// Whether there is no number.
    pub fn is_empty(self) -> bool
        ensures { IsTrue result ↔ ((q : ℕ) → has self q ≡ false) }
    {
        self.first().is_none()
    }

    /// The least number of the set.
    pub fn first(self) -> Option<u8>
        ensures { MatchOption result ((q : ℕ) → has self q ≡ false)
            (λ least. (least < 64) × (has self least ≡ true)
            × ((q : ℕ) → has self q ≡ true → least ≤ q)) }
    {
        if self.0 == 0 {
            None
        } else {
            Some(self.0.trailing_zeros() as u8)
        }
    }

    /// The greatest number of the set.
    pub fn last(self) -> Option<u8>
        ensures { MatchOption result ((q : ℕ) → has self q ≡ false)
            (λ greatest. (greatest < 64) × (has self greatest ≡ true)
            × ((q : ℕ) → has self q ≡ true → q ≤ greatest)) }
    {
        if self.0 == 0 {
            None
        } else {
            Some(63 - self.0.leading_zeros() as u8)
        }
    }

    /// The set of one number.
    pub fn of(number: u8) -> PositionSet
        requires { number < 64 }
        ensures { (q : ℕ) → has result q ≡ (q == number) }
    {
        PositionSet::empty().with(number)
    }

    /// The set without one number.
    pub fn without(self, number: u8) -> PositionSet
        requires { number < 64 }
        ensures { (q : ℕ) → has result q ≡ (has self q && not (q == number)) }
    {
        self.difference(PositionSet::of(number))
    }

    /// How many numbers there are.
    pub fn size(self) -> u8
        ensures { result ≤ 64 }
    {
        self.0.count_ones() as u8
    }

    /// The only number, if there is just one.
    pub fn only(self) -> Option<u8>
        ensures { MatchOption result (length (members self) ≡ 1 → ⊥) (λ q. members self ≡ q ∷ []) }
    {
        let first = self.first()?;
        if self.without(first).is_empty() {
            Some(first)
        } else {
            None
        }
    }

    /// Whether a number is in both sets.
    pub fn meets(self, other: PositionSet) -> bool
        ensures { IsTrue result ↔ ((q : ℕ) × (has self q ≡ true) × (has other q ≡ true)) }
    {
        self.intersection(other).first().is_some()
    }

    /// Takes out the least number.
    pub fn take_first(&mut self) -> Option<u8>
        ensures { MatchOption result (members self.old ≡ [])
            (λ q. (q < 64) × (members self.old ≡ q ∷ members self.new)) }
    {
        let first = self.first()?;
        *self = self.without(first);
        Some(first)
    }
}
