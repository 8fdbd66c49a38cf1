//! The loads of the limits that a container counts in.

ghost use Rattle.std.specs.Prelude.{◌≡◌, ◌+◌, ◌<◌, ◌≤◌, ◌^◌, ℕ, All, nat_lt, length, slice_index};
ghost use Rattle.std.specs.List.{find};
ghost use Rattle.hold_partial.specs.Limits.{added_at};

use mass_units::Kg;

fn is_over(loads: &[u32], allowed: &[u32], place: u8, mass: Kg) -> bool
    requires loads { place < length loads.now }
    requires allowed { place < length allowed.now }
    requires fits { slice_index loads.now place + mass.0 < 2 ^ 32 }
    ensures { result ≡ nat_lt (slice_index allowed.now place) (slice_index loads.now place + mass.0) }
{
    loads[place as usize] + mass.0 > allowed[place as usize]
}

/// The first of the limits whose load would be more than it allows with one mass more.
pub fn first_over(loads: &[u32], allowed: &[u32], limits: &[u8], mass: Kg) -> Option<u8>
    requires within { All (λ j. (j < length loads.now) × (j < length allowed.now)) limits.now }
    requires fits { All (λ j. slice_index loads.now j + mass.0 < 2 ^ 32) limits.now }
    ensures { result ≡ find
        (λ j. nat_lt (slice_index allowed.now j) (slice_index loads.now j + mass.0)) limits.now }
{
    for place in limits {
        if is_over(loads, allowed, *place, mass) {
            return Some(*place);
        }
    }
    None
}

/// Adds a mass to the loads of the limits.
pub fn add_load(loads: &mut [u32], limits: &[u8], mass: Kg)
    requires within { All (λ j. j < length loads.old) limits.now }
    requires fits { All
        (λ k. slice_index loads.old k + added_at mass.0 limits.now k < 2 ^ 32) limits.now }
    ensures { (k : ℕ) → slice_index loads.new k
        ≡ slice_index loads.old k + added_at mass.0 limits.now k }
{
    for place in limits {
        loads[*place as usize] += mass.0;
    }
}

/// Takes a mass off the loads of the limits.
pub fn take_load(loads: &mut [u32], limits: &[u8], mass: Kg)
    requires within { All (λ j. j < length loads.old) limits.now }
    requires there { All (λ k. added_at mass.0 limits.now k ≤ slice_index loads.old k) limits.now }
    ensures { (k : ℕ) → slice_index loads.new k + added_at mass.0 limits.now k
        ≡ slice_index loads.old k }
{
    for place in limits {
        loads[*place as usize] -= mass.0;
    }
}
