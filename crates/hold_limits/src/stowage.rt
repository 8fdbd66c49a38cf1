//! All that lies in a hold: the containers of a prefix, placed, and the loose loads beside them.

ghost use Rattle.std.specs.Prelude.{◌≡◌, ◌≤◌, map, zip, length};
ghost use Rattle.hold_limits.specs.BranchOrder.{order_of, ordered};
ghost use Rattle.hold_limits.specs.Faults.{IsLawful};
ghost use Rattle.hold_limits.specs.Placement.{loose_load};
ghost use Rattle.hold_limits.specs.Stowage.{as_load, stowed};
ghost use Rattle.hold_parts.specs.Limits.{is_limited};

use crate::order::item_at;
use crate::task::Task;
use arrayvec::ArrayVec;
use hold_parts::{Item, Limit, Loose};

/// Up to 60 containers and 64 loose loads. A container counts as a load on its position.
pub type Stowage = ArrayVec<Loose, 124>;

fn placed_containers(items: &[Item], order: &[u8], prefix: &[u8]) -> Stowage
    requires ordered { order.now ≡ order_of items.now }
    requires short { length prefix.now ≤ length items.now }
    requires few { length prefix.now ≤ 60 }
    ensures { result.items ≡ map as_load (zip (ordered items.now) prefix.now) }
{
    let mut stowage = ArrayVec::new();
    for rank in 0..prefix.len() {
        stowage.push(Loose {
            position: prefix[rank],
            mass: item_at(items, order, rank).mass,
        });
    }
    stowage
}

/// The containers of a prefix, in branch order, and then the loose loads. `order` is the branch order of `items`.
pub fn stowage_of(items: &[Item], order: &[u8], prefix: &[u8], loose: &[Loose]) -> Stowage
    requires ordered { order.now ≡ order_of items.now }
    requires short { length prefix.now ≤ length items.now }
    requires containers { length prefix.now ≤ 60 }
    requires loose { length loose.now ≤ 64 }
    ensures { result.items ≡ stowed items.now prefix.now loose.now }
{
    let mut stowage = placed_containers(items, order, prefix);
    for load in loose {
        stowage.push(*load);
    }
    stowage
}

/// What lies in the hold of a task, where a prefix places its first containers.
pub fn stowage_in(task: &Task, prefix: &[u8]) -> Stowage
    requires { length prefix.now ≤ length task.now.items }
    ensures stowed { result.items ≡ stowed task.now.items prefix.now task.now.loose }
    ensures lawful { IsLawful task.now }
{
    stowage_of(task.items(), task.order(), prefix, task.loose())
}

/// The mass on the positions of a limit, in kilograms.
pub fn load_on(stowage: &[Loose], limit: &Limit<'_>) -> u64
    requires { length stowage.now ≤ 124 }
    ensures { result ≡ loose_load (is_limited limit.now) stowage.now }
{
    let mut mass = 0;
    for load in stowage {
        if limit.covers(load.position) {
            mass += u64::from(load.mass.0);
        }
    }
    mass
}
