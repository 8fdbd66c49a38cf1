//! Which positions placed containers close to their twins.

ghost use Rattle.std.specs.Prelude.{◌≡◌, ◌≢◌, ◌<◌, ◌||◌, ℕ, false, slice_index_or, slice_set};
ghost use Rattle.position_set.specs.declared.set.PositionSet.{PositionSet};
ghost use Rattle.position_set.specs.Sets.{has};

use position_set::PositionSet;

/// The positions that placed containers close to their twins, by their ranks in the order of influence: those with no
/// greater number. A class of twins is known by the rank, in branch order, of its first container.
#[derive(Clone, Copy, Debug)]
pub struct Closed {
    /// What is closed to each class.
    pub to: [PositionSet; 60],
    /// What was closed to the class of each placed container before it was placed. Later entries mean nothing.
    pub before: [PositionSet; 60],
}

impl Closed {
    /// Nothing is closed.
    pub fn nothing() -> Closed
        ensures { (class r : ℕ) (d : PositionSet) → class < 60
            → has (slice_index_or result.to class d) r ≡ false }
    {
        Closed {
            to: [PositionSet::empty(); 60],
            before: [PositionSet::empty(); 60],
        }
    }

    /// Closes positions to a class, for the container of this rank.
    pub fn close(&mut self, rank: usize, class: u8, ranks: PositionSet)
        requires rank_known { rank < 60 }
        requires class_known { class < 60 }
        ensures class { (d : PositionSet) (r : ℕ) → has (slice_index_or self.new.to class d) r
            ≡ (has (slice_index_or self.old.to class d) r || has ranks r) }
        ensures others { (k : ℕ) (d : PositionSet) → k ≢ class
            → slice_index_or self.new.to k d ≡ slice_index_or self.old.to k d }
        ensures before { (d : PositionSet)
            → self.new.before ≡ slice_set self.old.before rank (slice_index_or self.old.to class d) }
    {
        let closed = self.to[class as usize];
        self.before[rank] = closed;
        self.to[class as usize] = closed.union(ranks);
    }

    /// Opens to a class what the container of this rank closed.
    pub fn reopen(&mut self, rank: usize, class: u8)
        requires rank_known { rank < 60 }
        requires class_known { class < 60 }
        ensures to { (d : PositionSet)
            → self.new.to ≡ slice_set self.old.to class (slice_index_or self.old.before rank d) }
        ensures before { self.new.before ≡ self.old.before }
    {
        self.to[class as usize] = self.before[rank];
    }
}
