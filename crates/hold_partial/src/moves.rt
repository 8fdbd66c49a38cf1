//! Moving a partial placement from one prefix to another.

ghost use Rattle.std.specs.Prelude.{◌≡◌, ◌<◌, ◌≤◌, ◌++◌, ◌∷◌, [], IsTrue, false, length, take};
ghost use Rattle.hold_limits.specs.Placement.{IsSound};
ghost use Rattle.hold_partial.specs.Placing.{placing_of};
ghost use Rattle.hold_reach.specs.Reach.{IsViable};

use crate::partial::Partial;

/// With how many numbers both begin.
fn common_front(one: &[u8], other: &[u8]) -> usize
    ensures within { result ≤ length one.now }
    ensures within_other { result ≤ length other.now }
    ensures same { take result one.now ≡ take result other.now }
{
    let mut common = 0;
    while common < one.len() && common < other.len() && one[common] == other[common] {
        common += 1;
    }
    common
}

/// Takes containers off until no more than the first `count` are placed.
pub fn keep_first(partial: &mut Partial<'_>, count: usize)
    requires { count ≤ length partial.old.prefix }
    ensures { partial.new ≡ placing_of partial.old.task (take count partial.old.prefix) }
{
    while partial.prefix().len() > count {
        partial.undo();
    }
}

/// Moves the placement to a prefix by way of what both begin with. False where the prefix is not sound.
pub fn move_to(partial: &mut Partial<'_>, prefix: &[u8]) -> bool
    requires { length prefix.now ≤ length partial.old.task.items }
    ensures task { partial.new.task ≡ partial.old.task }
    ensures moved { IsTrue result → partial.new.prefix ≡ prefix.now }
    ensures unsound { result ≡ false → IsSound partial.old.task prefix.now → ⊥ }
{
    let common = common_front(partial.prefix(), prefix);
    keep_first(partial, common);
    for rank in common..prefix.len() {
        if partial.try_place(prefix[rank]).is_err() {
            return false;
        }
    }
    true
}

/// Places the next container on the position, where that neither falls below a placed twin nor breaks a rule of the
/// hold. True if it did.
pub fn advances(partial: &mut Partial<'_>, number: u8) -> bool
    requires { length partial.old.prefix < length partial.old.task.items }
    ensures placed { IsTrue result
        → partial.new ≡ placing_of partial.old.task (partial.old.prefix ++ number ∷ []) }
    ensures same { result ≡ false → partial.new ≡ partial.old }
    ensures unviable { result ≡ false → IsViable partial.old.task (partial.old.prefix ++ number ∷ []) → ⊥ }
{
    !partial.falls(number) && partial.try_place(number).is_ok()
}
