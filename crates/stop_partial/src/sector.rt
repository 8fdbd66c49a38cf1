//! A partial placement on one sector, and whether it can be part of a placement over several.

ghost use Rattle.std.specs.Prelude.{◌≡◌, ◌↔◌, ◌<◌, ◌++◌, ◌∷◌, [], IsTrue, length};
ghost use Rattle.hold_limits.specs.Placement.{IsSound};
ghost use Rattle.hold_reach.specs.Reach.{Meets, MeetsLateral, lateral_reach, wide_reach};
ghost use Rattle.stop_tasks.specs.StopPaths.{IsWidelyViable};
ghost use Rattle.stop_partial.specs.Next.{AreNext};

use crate::next::{NextPositions, moments_with, others_around};
use hold_partial::{Partial, move_to};
use hold_reach::{Span, meets_lateral_limit, meets_window};
use position_set::PositionSet;

/// Whether some hold index in wide reach is in the window of the task.
fn can_meet_window(partial: &Partial<'_>) -> bool
    ensures { IsTrue result ↔ Meets partial.now.task.low partial.now.task.high
        (wide_reach partial.now.task partial.now.prefix) }
{
    match partial.wide_reach() {
        Some((low, high)) => meets_window(
            partial.task(),
            Span {
                low: low.0,
                high: high.0,
            },
        ),
        None => false,
    }
}

/// Whether some lateral difference in reach is within the lateral limit of the hold, if it has one.
fn can_meet_lateral_limit(partial: &Partial<'_>) -> bool
    ensures { IsTrue result ↔ MeetsLateral partial.now.task.hold
        (lateral_reach partial.now.task partial.now.prefix) }
{
    let hold = partial.task().hold();
    if hold.lateral().is_none() {
        return true;
    }
    match partial.lateral_reach() {
        Some((low, high)) => meets_lateral_limit(hold, Span { low, high }),
        None => false,
    }
}

/// Moves the placement to the part of a prefix on its sector. True where the part is sound and the sector's window and
/// lateral limit can still be met from it.
pub fn moves_to_viable(partial: &mut Partial<'_>, part: &[u8]) -> bool
    ensures task { partial.new.task ≡ partial.old.task }
    ensures moved { IsTrue result → partial.new.prefix ≡ part.now }
    ensures viable { IsTrue result ↔ IsWidelyViable partial.old.task part.now }
{
    if part.len() > partial.task().items().len() || !move_to(partial, part) {
        return false;
    }
    let _sound = partial.prefix();
    can_meet_window(partial) && can_meet_lateral_limit(partial)
}

/// Whether the next container may stand on the position after what is placed.
fn may_follow(partial: &mut Partial<'_>, number: u8) -> bool
    requires { length partial.old.prefix < length partial.old.task.items }
    ensures sound { IsTrue result ↔ IsSound partial.old.task (partial.old.prefix ++ number ∷ []) }
    ensures same { partial.new ≡ partial.old }
{
    if partial.try_place(number).is_err() {
        return false;
    }
    partial.undo();
    true
}

/// Where the next container may stand after what is placed.
fn next_positions(partial: &mut Partial<'_>) -> NextPositions
    requires { length partial.old.prefix < length partial.old.task.items }
    ensures next { AreNext partial.old.task partial.old.prefix result }
    ensures same { partial.new ≡ partial.old }
{
    let mut fitting = PositionSet::empty();
    let mut moments = None;
    for number in 0..partial.task().hold().position_count() {
        if may_follow(partial, number) {
            fitting = fitting.with(number);
            moments = Some(moments_with(partial, moments, number));
        }
    }
    match moments {
        Some(moments) => NextPositions {
            fitting,
            others: others_around(partial, moments),
        },
        None => NextPositions::none(),
    }
}

/// Moves the placement to the prefix, and answers where its next container may stand. It may stand nowhere where the
/// prefix is not sound or has every container.
pub fn next_after(partial: &mut Partial<'_>, prefix: &[u8]) -> NextPositions
    ensures next { AreNext partial.old.task prefix.now result }
    ensures task { partial.new.task ≡ partial.old.task }
{
    if prefix.len() >= partial.task().items().len() || !move_to(partial, prefix) {
        return NextPositions::none();
    }
    next_positions(partial)
}
