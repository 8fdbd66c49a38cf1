//! The positions that are open for the containers that a placement leaves, for all of these at once.

ghost use Rattle.std.specs.Prelude.{◌≡◌, ◌<◌, ◌&&◌, nat_lt, ℕ, Bool, Some, length, slice_get};
ghost use Rattle.std.specs.List.{AllZip};
ghost use Rattle.hold_parts.specs.declared.parts.Item.{Item};
ghost use Rattle.hold_limits.specs.BranchOrder.{ordered};
ghost use Rattle.hold_reach.specs.Reach.{is_open, remaining};
ghost use Rattle.hold_partial.specs.Arrangement.{at_rank};
ghost use Rattle.hold_partial.specs.Kept.{IsKept};
ghost use Rattle.hold_partial.specs.Levels.{is_blocked};
ghost use Rattle.position_set.specs.Sets.{Stands};

use crate::board::Board;
use arrayvec::ArrayVec;
use position_set::PositionSet;

/// A set of positions for each container that a placement leaves, in branch order.
pub type OpenSets = ArrayVec<PositionSet, 60>;

/// The numbers of the positions with these ranks in the order of influence.
fn numbers_of(board: &Board<'_>, ranks: PositionSet) -> PositionSet
    requires { IsKept board.now }
    ensures { (test : ℕ → Bool) → Stands ranks (at_rank test board.now.tables.ranks.items)
        → Stands result (λ q. nat_lt q (length board.now.task.now.hold.positions) && test q) }
{
    let mut numbers = PositionSet::empty();
    for (number, entry) in board.tables.positions.iter().enumerate() {
        numbers = numbers.with_if(number as u8, ranks.contains(entry.rank));
    }
    numbers
}

/// The positions that are open for the container of a rank of branch order, where these numbers are blocked.
fn open_set(board: &Board<'_>, blocked: PositionSet, rank: usize) -> PositionSet
    requires kept { IsKept board.now }
    requires blocked { Stands blocked (λ q. nat_lt q (length board.now.task.now.hold.positions)
        && is_blocked board.now.task.now.hold board.now.prefix.items q) }
    requires known { rank < length board.now.task.now.items }
    ensures { (item : Item) → slice_get (ordered board.now.task.now.items) rank ≡ Some item
        → Stands result (is_open board.now.task.now board.now.prefix.items item) }
{
    let demand = &board.tables.demands[rank];
    let free = demand.accepting.difference(blocked);
    let closed = board.closed.to[demand.twins as usize];
    if closed.is_empty() {
        return free;
    }
    free.difference(numbers_of(board, closed))
}

/// The positions that are open for each container that is left, in branch order.
pub fn open_sets(board: &Board<'_>) -> OpenSets
    requires { IsKept board.now }
    ensures sets { AllZip (λ item set. Stands set (is_open board.now.task.now board.now.prefix.items item))
        (remaining board.now.task.now board.now.prefix.items) result.items }
    ensures count { length result.items ≡ length (remaining board.now.task.now board.now.prefix.items) }
{
    let placed = board.prefix.len();
    let blocked = numbers_of(board, board.levels[placed].blocked_ranks);
    let mut sets = OpenSets::new();
    for rank in placed..board.tables.demands.len() {
        sets.push(open_set(board, blocked, rank));
    }
    sets
}
