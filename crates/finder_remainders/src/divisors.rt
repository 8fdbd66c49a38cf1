//! What divides all that hold indices differ by.

ghost use Rattle.std.specs.Prelude.{◌<◌, ◌≢◌, ℕ, ◌-ℤ◌, ◌↔◌, All, length, slice_index};
ghost use Rattle.std.specs.Int.{IsGcd, ◌∣◌};
ghost use Rattle.finder_remainders.specs.Remainders.{LeaveThatOf, DivideAllBut};

use crate::spots::Spot;

/// The greatest common divisor; of a number and 0 it is the number.
fn common_divisor(one: u64, other: u64) -> u64
    ensures { IsGcd one other result }
{
    let mut larger = one;
    let mut smaller = other;
    while smaller != 0 {
        let rest = larger % smaller;
        larger = smaller;
        smaller = rest;
    }
    larger
}

/// The greatest number that divides all that the hold indices of some spots differ by from one; 0 where each of them is this one.
pub fn divisor_from(index: i64, spots: &[Spot]) -> u64
    ensures { (d : ℕ) → (d ∣ result) ↔ LeaveThatOf d index spots.now }
{
    let mut divisor = 0;
    for spot in spots {
        divisor = common_divisor(spot.index.abs_diff(index), divisor);
    }
    divisor
}

/// The greatest number that divides all divisors but the one at a rank.
pub fn divisor_without(divisors: &[u64], rank: usize) -> u64
    ensures { (d : ℕ) → (d ∣ result) ↔ DivideAllBut d rank divisors.now }
{
    let mut common = 0;
    for (other, divisor) in divisors.iter().enumerate() {
        if other != rank {
            common = common_divisor(*divisor, common);
        }
    }
    common
}
