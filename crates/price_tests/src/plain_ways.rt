// The tight reach by trying every way: each container on each position that is open for it and not taken by one before.
ghost use Rattle.std.specs.Prelude.{◌≤◌, ◌<◌, length};

use hold_limits::hold_index_of;
use hold_partial::Partial;
use position_set::PositionSet;

/// The least and the greatest hold index of the ways so far, if there are any.
type Ends = Option<(i64, i64)>;

fn with_way(ends: Ends, index: i64) -> Ends {
    match ends {
        Some((low, high)) => Some((low.min(index), high.max(index))),
        None => Some((index, index)),
    }
}

/// The ends with all ways that go on from here: the containers before this rank stand on the taken positions.
fn with_ways(partial: &Partial<'_>, rank: u8, taken: PositionSet, index: i64, ends: Ends) -> Ends
    requires { length partial.now.prefix ≤ rank }
{
    let task = partial.task();
    if usize::from(rank) >= task.items().len() {
        return with_way(ends, index);
    }
    let mass = i64::from(task.at_rank(usize::from(rank)).mass.0);
    let mut ends = ends;
    for number in 0..task.hold().position_count() {
        if partial.is_open(rank, number) && !taken.contains(number) {
            let moment = mass.wrapping_mul(i64::from(task.hold().influence_at(number)));
            let next = index.wrapping_add(moment);
            ends = with_ways(partial, rank + 1, taken.with(number), next, ends);
        }
    }
    ends
}

/// The tight reach of the placement, by trying every way.
pub fn tight_by_trial(partial: &Partial<'_>) -> Ends {
    let prefix = partial.prefix();
    let so_far = hold_index_of(partial.task(), prefix).0;
    with_ways(
        partial,
        prefix.len() as u8,
        PositionSet::empty(),
        so_far,
        None,
    )
}
