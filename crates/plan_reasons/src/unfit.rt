//! Containers that no position takes, and kinds with too few positions.

ghost use Rattle.std.specs.Prelude.{◌≡◌, find};
ghost use Rattle.std.specs.List.{list_any};
ghost use Rattle.std.specs.Option.{option_copied};
ghost use Rattle.hold_parts.specs.Accepting.{accepts};
ghost use Rattle.plan_reasons.specs.Unfit.{is_unfit, are_of_one_kind, is_first_of_kind, offered_of_kind, accepts_of_kind, positions_for_kind, begins_short_kind};

use hold_limits::{Item, Position, Task};

/// Whether some of the positions accepts the container with its mass.
fn is_accepted(positions: &[Position], item: &Item) -> bool
    ensures { result ≡ list_any (accepts item.now) positions.now }
{
    positions.iter().any(|position| position.accepts(item))
}

/// Whether no position accepts the container with its mass.
pub fn is_unfit(task: &Task, item: &Item) -> bool
    ensures { result ≡ is_unfit task.now item.now }
{
    !is_accepted(task.hold().positions(), item)
}

/// Whether the two containers are of one kind.
fn are_of_one_kind(one: &Item, other: &Item) -> bool
    ensures { result ≡ are_of_one_kind one.now other.now }
{
    one.id.kind() == other.id.kind()
}

/// The first of these containers that is of this one's kind.
fn first_of_kind<'a>(items: &'a [Item], item: &Item) -> Option<&'a Item>
    ensures { option_copied result ≡ find (are_of_one_kind item.now) items.now }
{
    items.iter().find(|other| are_of_one_kind(item, other))
}

/// Whether the container is the first of its kind in the offer.
fn is_first_of_kind(task: &Task, item: &Item) -> bool
    ensures { result ≡ is_first_of_kind task.now item.now }
{
    match first_of_kind(task.items(), item) {
        Some(first) => first.id.bytes() == item.id.bytes(),
        None => false,
    }
}

/// How many containers of this one's kind are offered.
pub fn offered_of_kind(task: &Task, item: &Item) -> usize
    ensures { result ≡ offered_of_kind task.now item.now }
{
    task.items()
        .iter()
        .filter(|other| are_of_one_kind(item, other))
        .count()
}

/// Whether the position accepts an offered container of this one's kind.
fn accepts_of_kind(task: &Task, item: &Item, position: &Position) -> bool
    ensures { result ≡ accepts_of_kind task.now item.now position.now }
{
    task.items().iter().any(|other| are_of_one_kind(item, other) && position.accepts(other))
}

/// How many positions accept an offered container of this one's kind.
pub fn positions_for_kind(task: &Task, item: &Item) -> usize
    ensures { result ≡ positions_for_kind task.now item.now }
{
    task.hold()
        .positions()
        .iter()
        .filter(|position| accepts_of_kind(task, item, position))
        .count()
}

/// Whether there are fewer positions for the kind than containers of it, and the container is the first of them.
pub fn begins_short_kind(task: &Task, item: &Item) -> bool
    ensures { result ≡ begins_short_kind task.now item.now }
{
    is_first_of_kind(task, item) && positions_for_kind(task, item) < offered_of_kind(task, item)
}
