//! The indices of a placement, and its lateral difference: its hold index, whether that is in the window, how far the
//! take-off index lies from the ideal band, and how much more mass lies on the right than on the left.

ghost use Rattle.std.specs.Prelude.{◌≡◌, ◌≤◌, ◌↔◌, ◌≤ℤ◌, unsigned_abs, IsTrue, length};
ghost use Rattle.hold_limits.specs.Faults.{IsLawful};
ghost use Rattle.hold_limits.specs.Placement.{IsSound, IsAdmissible, KeepsLateralLimit, hold_index, take_off_index, distance_to, distance, lateral_difference};

use crate::moments::{Arm, moment_in};
use crate::sound::is_sound;
use crate::task::{Path, Task};
use mass_units::Ticks;

/// The hold index of a prefix, in ticks: mass times influence, summed over the containers that it places
/// and the loose loads. A number that is no position's counts with influence 0.
///
/// It lies within 2,480,000 index units either way, since a lawful task has at most 60 containers and 64
/// loose loads, each of at most 20,000 kg at one index unit for each kilogram.
pub fn hold_index_of(task: &Task, prefix: &[u8]) -> Ticks
    requires { length prefix.now ≤ length task.now.items }
    ensures value { result.0 ≡ hold_index task.now prefix.now }
    ensures bounded { unsigned_abs result.0 ≤ 248000000000 }
    ensures lawful { IsLawful task.now }
{
    Ticks(moment_in(task, Arm::Influence, prefix))
}

/// Whether a hold index, in ticks, is in the task's window. Both ends belong to it.
pub fn is_in_window(task: &Task, index: Ticks) -> bool
    ensures { IsTrue result ↔ ((task.now.low ≤ℤ index.0) × (index.0 ≤ℤ task.now.high)) }
{
    task.low().0 <= index.0 && index.0 <= task.high().0
}

/// How far a take-off index lies from the ideal band, in ticks: 0 in the band, else the way to its nearer
/// end.
pub fn distance_from_ideal(task: &Task, take_off: Ticks) -> u64
    ensures { result ≡ distance_to task.now.ideal_low task.now.ideal_high take_off.0 }
{
    let low = task.ideal_low().0;
    let high = task.ideal_high().0;
    if take_off.0 < low {
        low.abs_diff(take_off.0)
    } else if high < take_off.0 {
        take_off.0.abs_diff(high)
    } else {
        0
    }
}

/// The take-off index of a prefix, in ticks: the base index and the hold index.
fn take_off_index_of(task: &Task, prefix: &[u8]) -> Ticks
    requires { length prefix.now ≤ length task.now.items }
    ensures value { result.0 ≡ take_off_index task.now prefix.now }
    ensures bounded { unsigned_abs result.0 ≤ 249000000000 }
    ensures lawful { IsLawful task.now }
{
    Ticks(task.base().0 + hold_index_of(task, prefix).0)
}

/// The take-off index of a path, which is the base index and the hold index, and its distance from the
/// ideal band, both in ticks.
pub fn outcome(task: &Task, path: &Path) -> (Ticks, u64)
    requires { IsSound task.now path.now.items }
    ensures index { result.0.0 ≡ take_off_index task.now path.now.items }
    ensures distance { result.1 ≡ distance task.now path.now.items }
    ensures bounded { result.1 ≤ 250000000000 }
{
    let take_off = take_off_index_of(task, path.as_slice());
    (take_off, distance_from_ideal(task, take_off))
}

/// The lateral difference of a prefix, in kilograms: the masses of the containers that it places and of the loose
/// loads, those on the right less those on the left. A hold without a lateral limit has no sides, and there it is 0.
///
/// It is no part of a sound prefix: a difference over the limit may shrink again as more containers are placed, so the
/// limit is on whole paths. The difference lies within 2,480 tonnes either way.
pub fn lateral_difference_of(task: &Task, prefix: &[u8]) -> i64
    requires { length prefix.now ≤ length task.now.items }
    ensures value { result ≡ lateral_difference task.now prefix.now }
    ensures bounded { unsigned_abs result ≤ 2480000 }
    ensures lawful { IsLawful task.now }
{
    moment_in(task, Arm::Side, prefix)
}

/// The lateral difference of a path, in kilograms, positive towards the right.
pub fn lateral_of(task: &Task, path: &Path) -> i64
    requires { IsSound task.now path.now.items }
    ensures value { result ≡ lateral_difference task.now path.now.items }
    ensures bounded { unsigned_abs result ≤ 2480000 }
{
    lateral_difference_of(task, path.as_slice())
}

/// Whether the lateral difference of a path is within the lateral limit of the hold.
fn keeps_lateral_limit(task: &Task, path: &[u8]) -> bool
    requires { length path.now ≤ length task.now.items }
    ensures { IsTrue result ↔ KeepsLateralLimit task.now path.now }
{
    let difference = lateral_difference_of(task, path);
    task.hold().is_within_lateral(difference)
}

/// Whether a path places the whole offer within every limit of the hold and the window.
pub fn is_admissible(task: &Task, path: &[u8]) -> bool
    ensures { IsTrue result ↔ IsAdmissible task.now path.now }
{
    is_sound(task, path)
        && path.len() == task.items().len()
        && is_in_window(task, hold_index_of(task, path))
        && keeps_lateral_limit(task, path)
}
