//! Arithmetic in 128 bits, in which nothing that the office computes overflows.

ghost use Rattle.std.specs.Prelude.{◌≡◌, ◌*◌, ◌<◌, ◌≤◌, ◌^◌, ◌↔◌, ℤ, pos, ◌-ℤ◌, ◌*ℤ◌, ◌≤ℤ◌, unsigned_abs};
ghost use Rattle.mass_units.specs.Rounding.{IsRounded};

pub(crate) fn difference(a: i64, b: i64) -> i128
    ensures value { result ≡ a -ℤ b }
    ensures bound { unsigned_abs result < 2 ^ 64 }
{
    i128::from(a) - i128::from(b)
}

pub(crate) fn product(a: i128, b: u32) -> i128
    requires { unsigned_abs a < 2 ^ 64 }
    ensures value { result ≡ a *ℤ pos b }
    ensures bound { unsigned_abs result < 2 ^ 96 }
{
    a * i128::from(b)
}

/// The quotient to the nearest whole number, a half away from zero.
pub(crate) fn rounded(n: i128, d: u64) -> i128
    requires divisor { 0 < d }
    requires room { unsigned_abs n < 2 ^ 120 }
    ensures { IsRounded n d result }
{
    let d = u128::from(d);
    let size = ((n.unsigned_abs() + d / 2) / d) as i128;
    if n < 0 { -size } else { size }
}

/// n * part / whole, rounded down towards minus infinity.
pub(crate) fn share_down(n: i128, part: u32, whole: u32) -> i128
    requires size { unsigned_abs n < 2 ^ 64 }
    requires some { 0 < whole }
    requires within { part ≤ whole }
    ensures down { (z : ℤ) → ((z *ℤ pos whole) ≤ℤ (n *ℤ pos part)) ↔ (z ≤ℤ result) }
    ensures low { (b : ℤ) → b ≤ℤ pos 0 → b ≤ℤ n → b ≤ℤ result }
    ensures high { (b : ℤ) → pos 0 ≤ℤ b → n ≤ℤ b → result ≤ℤ b }
    ensures bound { unsigned_abs result ≤ 2 ^ 64 }
{
    product(n, part).div_euclid(i128::from(whole))
}
