//! Whether interchangeable containers stand in rising order.

ghost use Rattle.std.specs.Prelude.{◌<◌, ◌≤◌, ◌↔◌, All, IsTrue, length};
ghost use Rattle.hold_parts.specs.Twins.{AreTwins};
ghost use Rattle.hold_limits.specs.Placement.{Placed, placed};
ghost use Rattle.hold_limits.specs.Twins.{IsRising};

use crate::task::Task;
use hold_parts::Item;

/// Whether two containers are no twins, or stand in rising order.
fn is_in_order(earlier: &Item, earlier_number: u8, later: &Item, number: u8) -> bool
    ensures { IsTrue result ↔ (AreTwins earlier.now later.now → earlier_number < number) }
{
    !earlier.is_twin_of(later) || earlier_number < number
}

/// Whether each twin of the container that has one of the numbers, those of the first of branch order, has a number
/// below this one.
fn is_after_twins(task: &Task, numbers: &[u8], item: &Item, number: u8) -> bool
    requires { length numbers.now ≤ length task.now.items }
    ensures { IsTrue result ↔ All (λ (a : Placed). AreTwins a.0 item.now → a.1 < number) (placed task.now numbers.now) }
{
    for rank in 0..numbers.len() {
        if !is_in_order(task.at_rank(rank), numbers[rank], item, number) {
            return false;
        }
    }
    true
}

/// Whether of any two twins that the prefix places the later in branch order has the greater number. It looks at all
/// pairs: it is the plain test that faster ones are compared with.
pub fn is_rising(task: &Task, prefix: &[u8]) -> bool
    requires { length prefix.now ≤ length task.now.items }
    ensures { IsTrue result ↔ IsRising task.now prefix.now }
{
    for rank in 0..prefix.len() {
        if !is_after_twins(task, &prefix[..rank], task.at_rank(rank), prefix[rank]) {
            return false;
        }
    }
    true
}
