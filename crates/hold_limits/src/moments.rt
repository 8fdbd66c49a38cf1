//! Moments: mass times arm, summed over all that lies in a hold.
//!
//! The method is that of FAA-H-8083-1B: the moment of a load is its mass times its arm, and an index is a moment in a
//! unit that keeps it short. Along the hold the arm of a position is its influence, the ticks by which one kilogram on
//! it moves the index. Across the hold it is the position's side, which makes of a sum of moments the difference of
//! the masses right and left.

ghost use Rattle.std.specs.Prelude.{◌≡◌, ◌*◌, ◌<◌, ◌≤◌, ◌^◌, unsigned_abs, length};
ghost use Rattle.base_words.specs.Lists.{int_sum_by};
ghost use Rattle.hold_limits.specs.Faults.{IsLawful, IsLawfulHold};
ghost use Rattle.hold_limits.specs.Arms.{arm_at, longest, loose_by, moment_by};

use crate::hold::Hold;
use crate::stowage::stowage_in;
use crate::task::Task;
use hold_parts::Loose;

/// What the mass on a position is multiplied by.
#[derive(Clone, Copy)]
pub enum Arm {
    /// The position's influence, in ticks for each kilogram.
    Influence,
    /// 1 on the right, -1 on the left, and 0 on neither.
    Side,
}

fn arm_at(hold: &Hold, arm: Arm, number: u8) -> i32
    ensures { result ≡ arm_at arm hold.now number }
{
    match arm {
        Arm::Influence => hold.influence_at(number),
        Arm::Side => hold.side_at(number),
    }
}

/// The moment of a load on its position.
fn moment_at(hold: &Hold, arm: Arm, load: &Loose) -> i64
    ensures value { result ≡ loose_by (arm_at arm hold.now) load.now }
    ensures mass { load.now.mass.0 < 2 ^ 32 }
{
    i64::from(load.mass.0) * i64::from(arm_at(hold, arm, load.position))
}

/// The moments of all that is stowed, together.
pub fn moment_of(hold: &Hold, arm: Arm, stowage: &[Loose]) -> i64
    requires lawful { IsLawfulHold hold.now }
    requires few { length stowage.now ≤ 124 }
    ensures value { result ≡ int_sum_by (loose_by (arm_at arm hold.now)) stowage.now }
    ensures bounded { unsigned_abs result ≤ 62000000000000000 }
{
    let mut moment = 0;
    for load in stowage {
        moment += moment_at(hold, arm, load);
    }
    moment
}

/// The moments of the containers that a prefix places and of the loose loads, together.
///
/// A lawful task has at most 60 containers and 64 loose loads, each of at most 20,000 kg.
pub fn moment_in(task: &Task, arm: Arm, prefix: &[u8]) -> i64
    requires { length prefix.now ≤ length task.now.items }
    ensures value { result ≡ moment_by (arm_at arm task.now.hold) task.now prefix.now }
    ensures bounded { unsigned_abs result ≤ 2480000 * longest arm }
    ensures lawful { IsLawful task.now }
{
    let stowage = stowage_in(task, prefix);
    moment_of(task.hold(), arm, stowage.as_slice())
}
