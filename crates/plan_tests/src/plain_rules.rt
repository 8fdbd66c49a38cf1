//! The first rule that a placement breaks, by loops over containers and positions as the definitions say it: the plain
//! program that a partial placement is compared with.

ghost use Rattle.std.specs.Prelude.{◌≡◌, ◌<◌, ◌++◌, ◌∷◌, [], Some, length, slice_get};
ghost use Rattle.hold_parts.specs.declared.parts.Item.{Item};
ghost use Rattle.hold_limits.specs.BranchOrder.{ordered};
ghost use Rattle.hold_reach.specs.Rules.{is_used, excluding, rule_broken};

use hold_limits::{Hold, Path, Task};
use hold_reach::{RuleBroken, accepts_kind_at, broken_limit};

/// Whether a container of the prefix stands on the position.
pub fn uses(prefix: &[u8], number: u8) -> bool
    ensures { result ≡ is_used prefix.now number }
{
    prefix.iter().any(|used| *used == number)
}

#[tactic(auto, using(base_words::proofs::ListLemmas::first_steps))]
fn excluding_position(hold: &Hold, prefix: &[u8], number: u8) -> Option<u8>
    ensures { result ≡ excluding hold.now prefix.now number }
{
    for other in 0..hold.position_count() {
        if uses(prefix, other) && hold.exclude_each_other(other, number) {
            return Some(other);
        }
    }
    None
}

fn extended(prefix: &[u8], number: u8) -> Path
    requires { length prefix.now < 60 }
    ensures { result.items ≡ prefix.now ++ number ∷ [] }
{
    let mut path = Path::new();
    for used in prefix {
        path.push(*used);
    }
    path.push(number);
    path
}

/// The first rule of the hold that breaks where the next container of branch order follows a prefix on a
/// position.
pub fn broken_rule(task: &Task, prefix: &[u8], number: u8) -> Option<RuleBroken>
    requires { length prefix.now < length task.now.items }
    ensures { (item : Item) → slice_get (ordered task.now.items) (length prefix.now) ≡ Some item
        → result ≡ rule_broken task.now prefix.now item number }
{
    let item = task.at_rank(prefix.len());
    let hold = task.hold();
    if number >= hold.position_count() {
        return Some(RuleBroken::Unknown);
    }
    if uses(prefix, number) {
        return Some(RuleBroken::Taken);
    }
    if !accepts_kind_at(hold, item, number) {
        return Some(RuleBroken::NoFit);
    }
    if !hold.accepts_at(item, number) {
        return Some(RuleBroken::TooHeavy);
    }
    if let Some(other) = excluding_position(hold, prefix, number) {
        return Some(RuleBroken::Excluded(other));
    }
    broken_limit(task, extended(prefix, number).as_slice())
}
