//! The prefixes that a best-first search has still to look at, least first.

ghost use Rattle.std.specs.Prelude.{◌≡◌, [], ◌∷◌, ◌++◌, All, IfNone, IfOk, IfSome, IsPermutation, IsSorted, List, length, map, nat_lt};
ghost use Rattle.std.specs.List.{filter};
ghost use Rattle.std.specs.Ordering.{nat_cmp};
ghost use Rattle.std.specs.Cmp.Lexicographic.{slice_cmp};
ghost use Rattle.std.specs.Result.{OnOk, OnErr};
ghost use Rattle.hold_limits.specs.Placement.{IsAtMost};
ghost use Rattle.certificate.specs.Evidence.{paths_of};
ghost use Rattle.path_search.specs.Keys.{key_of, key_of_entry, prefixes};

use base_words::NoMemory;
use hold_limits::Path;
use std::alloc::Global;
use std::cmp::Reverse;
use std::collections::BinaryHeap;
use std::marker::Model;

/// A prefix, with the ticks with which it waits. They are ordered by ticks, and equal ticks by path order.
#[derive(PartialEq, Eq, PartialOrd, Ord, Drop)]
pub struct Waiting {
    pub bound: u64,
    pub prefix: Path,
}

/// The paths, and then the prefixes with fewer than `complete` numbers, in the order of the entries.
fn with_incomplete(
    mut paths: Vec<Path>,
    entries: Vec<Reverse<Waiting>>,
    complete: usize,
) -> Result<Vec<Path>, NoMemory>
    ensures { IfOk result (λ all. paths_of all.items ≡ paths_of paths.items
        ++ filter (λ p. nat_lt (length p) complete) (prefixes (map key_of_entry entries.items))) }
{
    for Reverse(waiting) in entries {
        if waiting.prefix.len() < complete {
            paths.push(waiting.prefix)?;
        }
    }
    Ok(paths)
}

fn in_path_order(mut paths: Vec<Path>) -> Vec<Path>
    ensures permuted { IsPermutation (paths_of paths.items) (paths_of result.items) }
    ensures sorted { IsSorted (slice_cmp nat_cmp) (paths_of result.items) }
{
    paths.sort_unstable();
    paths
}

/// Prefixes with their ticks, from which the least is taken.
#[derive(Drop)]
pub struct Queue {
    heap: BinaryHeap<Reverse<Waiting>>,
}

impl Model for Queue {
    ghost use Rattle.std.specs.Prelude.{List};
    ghost use Rattle.hold_limits.specs.Placement.{Key};

    ghost Value = { List Key };

    ghost use Rattle.std.specs.Prelude.{map};
    ghost use Rattle.std.specs.BinaryHeap.{IsHeap, heap_items};
    ghost use Rattle.path_search.specs.Keys.{key_of_entry};

    ghost view = { λ q. map key_of_entry (heap_items q.heap) };

    ghost invariant = { λ q. IsHeap ⟦<Reverse<Waiting> as Ord>⟧.cmp (heap_items q.heap) };
}

impl Queue {
    /// Without prefixes.
    pub fn new(alloc: Global) -> Queue
        ensures { result ≡ [] }
    {
        Queue {
            heap: BinaryHeap::new(alloc),
        }
    }

    /// Adds a prefix. After an `Err` the queue is as before.
    pub fn add(&mut self, waiting: Waiting) -> Result<(), NoMemory>
        ensures added { OnOk result (IsPermutation (key_of waiting ∷ self.old) self.new) }
        ensures unchanged { OnErr result (self.new ≡ self.old) }
    {
        match self.heap.push(Reverse(waiting)) {
            Ok(()) => Ok(()),
            Err(_) => Err(NoMemory),
        }
    }

    /// Takes out the least prefix, if there is one.
    pub fn take_least(&mut self) -> Option<Waiting>
        ensures taken { IfSome result (λ w. IsPermutation self.old (key_of w ∷ self.new)) }
        ensures least { IfSome result (λ w. All (λ k. IsAtMost (key_of w) k) self.new) }
        ensures empty { IfNone result (self.old ≡ []) }
        ensures left { IfNone result (self.new ≡ []) }
    {
        let Reverse(waiting) = self.heap.pop()?;
        Some(waiting)
    }

    /// The paths with the prefixes that have fewer than `complete` numbers, in path order.
    pub fn into_incomplete(self, paths: Vec<Path>, complete: usize) -> Result<Vec<Path>, NoMemory>
        ensures kept { IfOk result (λ all. IsPermutation
            (paths_of paths.items ++ filter (λ p. nat_lt (length p) complete) (prefixes self))
            (paths_of all.items)) }
        ensures sorted { IfOk result (λ all. IsSorted (slice_cmp nat_cmp) (paths_of all.items)) }
    {
        Ok(in_path_order(with_incomplete(paths, self.heap.into_vec(), complete)?))
    }
}
