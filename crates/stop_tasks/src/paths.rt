//! What a placement over several sectors is on each of them, and whether it can be unloaded at each stop.

ghost use Rattle.std.specs.Prelude.{◌≡◌, ◌≤◌, ◌↔◌, ℕ, length, map, IsTrue, Some, slice_get, slice_index_or};
ghost use Rattle.stop_tasks.specs.StopPaths.{IsReachable, KeepsWayOut, part_of};

use arrayvec::ArrayVec;
use hold_limits::Path;

/// The last sector of the container at a rank of branch order, and 0 where there is none.
fn last_at(last: &[u8], rank: usize) -> u8
    ensures { result ≡ slice_index_or last.now rank 0 }
{
    last.get(rank).copied().unwrap_or(0)
}

/// The last sectors of the containers at these places of the offer.
pub fn last_of(leaves: &[u8], places: &[u8]) -> ArrayVec<u8, 60>
    requires { length places.now ≤ 60 }
    ensures { result.items ≡ map (λ (place : ℕ). slice_index_or leaves.now place 0) places.now }
{
    let mut last = ArrayVec::new();
    for place in places {
        last.push(last_at(leaves, *place as usize));
    }
    last
}

/// What a prefix is on the sector with this number: the positions of the containers that are still aboard there. `last`
/// is the last sector of each container, in branch order.
pub fn part_of(last: &[u8], number: u8, prefix: &[u8]) -> Path
    requires { length prefix.now ≤ 60 }
    ensures { result.items ≡ part_of last.now number prefix.now }
{
    let mut part = ArrayVec::new();
    for (position, last) in prefix.iter().zip(last) {
        if number <= *last {
            part.push(*position);
        }
    }
    part
}

/// Whether no container on the position leaves before this sector.
fn all_stay(last: &[u8], prefix: &[u8], position: u8, number: u8) -> bool
    ensures { IsTrue result ↔ ((rank : ℕ) → slice_get prefix.now rank ≡ Some position → number ≤ slice_index_or last.now rank 0) }
{
    for rank in 0..prefix.len() {
        if prefix[rank] == position && last_at(last, rank) < number {
            return false;
        }
    }
    true
}

/// Whether no container on the second position of the pair leaves before one on the first.
fn keeps_way_out(last: &[u8], prefix: &[u8], pair: (u8, u8)) -> bool
    ensures { IsTrue result ↔ KeepsWayOut last.now prefix.now pair }
{
    for rank in 0..prefix.len() {
        if prefix[rank] == pair.0 && !all_stay(last, prefix, pair.1, last_at(last, rank)) {
            return false;
        }
    }
    true
}

/// Whether a prefix can be unloaded at each stop: no container stands before one that leaves earlier. `last` is the
/// last sector of each container, in branch order, and the second position of each pair is behind the first.
pub fn is_reachable(last: &[u8], behind: &[(u8, u8)], prefix: &[u8]) -> bool
    ensures { IsTrue result ↔ IsReachable last.now behind.now prefix.now }
{
    for pair in behind {
        if !keeps_way_out(last, prefix, *pair) {
            return false;
        }
    }
    true
}
