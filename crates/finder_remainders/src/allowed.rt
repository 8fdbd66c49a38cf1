//! Whether some tick leaves the remainder of a hold index.

ghost use Rattle.std.specs.Prelude.{◌≡◌, ◌<◌, pos, ◌+ℤ◌, ◌-ℤ◌, ◌<ℤ◌, ◌↔◌, IsTrue};
ghost use Rattle.price_trees.specs.Narrowing.{IsIn};
ghost use Rattle.price_trees.specs.Trees.{IsMultiple};
ghost use Rattle.hold_choices.specs.Narrowed.{ticks_between};
ghost use Rattle.finder_remainders.specs.Remainders.{IsAllowed};

use finder_tables::TickSpan;

/// How far above `low` the first index lies that differs from the given one by a multiple of the divisor.
fn first_above(low: i64, index: i64, divisor: u64) -> u64
    requires { 0 < divisor }
    ensures near { result < divisor }
    ensures multiple { IsMultiple divisor ((low +ℤ pos result) -ℤ index) }
{
    let apart = low.abs_diff(index) % divisor;
    if low <= index || apart == 0 {
        apart
    } else {
        divisor - apart
    }
}

/// Whether an index is one of the ticks from `low` to `high`.
fn is_tick(low: i64, high: i64, index: i64) -> bool
    ensures { IsTrue result ↔ IsIn (ticks_between low high) index }
{
    low <= index && index <= high
}

/// Whether what lies so far above `low` is at most `high`.
fn is_within(low: i64, high: i64, above: u64) -> bool
    ensures { IsTrue result ↔ ((high <ℤ (low +ℤ pos above)) → ⊥) }
{
    low <= high && above <= high.abs_diff(low)
}

/// Whether some tick differs from an index by a multiple of the divisor; by one of 0 that is whether the index is a tick.
pub fn allows(ticks: TickSpan, index: i64, divisor: u64) -> bool
    ensures { IsTrue result ↔ IsAllowed (ticks_between ticks.low ticks.high) divisor index }
{
    if divisor == 0 {
        is_tick(ticks.low, ticks.high, index)
    } else {
        let above = first_above(ticks.low, index, divisor);
        is_within(ticks.low, ticks.high, above)
    }
}
