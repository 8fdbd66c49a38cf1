//! Moves from a path that breaks limits towards a sound one.

use finder_tables::{
    Limit, Load, Path, TickSpan, copy_of, each_of, has, index_of, load_of, number_at, one, put,
    set_at, sound_index, used_by,
};
use position_set::PositionSet;

/// At most so many moves are made.
const MOST_MOVES: u32 = 60;

/// A move by which less is broken: by how much, how far the hold index is then from the ticks, and what moves.
#[derive(Clone, Copy, PartialEq, Eq, PartialOrd, Ord)]
struct Mending {
    change: i64,
    far: i64,
    rank: usize,
    to: u8,
    /// The container that has the position, and takes that of the first.
    other: Option<usize>,
}

/// A path with what it breaks.
#[derive(Drop)]
struct Broken<'a> {
    load: &'a Load,
    sets: &'a [PositionSet],
    ticks: TickSpan,
    path: Path,
    used: PositionSet,
}

/// By how much more a limit is broken that is broken by so much, where its load grows so much.
fn broken_more(over: i64, grows: i64) -> i64 {
    let after = over.saturating_add(grows).max(0);
    after.saturating_sub(over.max(0))
}

impl Broken<'_> {
    /// The rank of the container that has a position.
    fn owner(&self, number: u8) -> Option<usize> {
        self.path
            .as_slice()
            .iter()
            .position(|taken| *taken == number)
    }

    /// What the containers on some positions weigh, each with one kilogram more.
    fn weight(&self, positions: PositionSet) -> i64 {
        let mut weight: i64 = 0;
        for number in each_of(positions) {
            if let Some(owner) = self.owner(number) {
                let mass = self.load.mass(owner).saturating_add(1);
                weight = weight.saturating_add(mass);
            }
        }
        weight
    }

    /// The used positions that a position excludes, but for one.
    fn excluded(&self, number: u8, except: u8) -> PositionSet {
        let taken = self.load.taken(number).intersection(self.used);
        taken.difference(one(except))
    }

    /// By how much more a limit is broken, where a mass goes from one position to another.
    fn limit_change(&self, limit: &Limit, mass: i64, from: u8, to: u8) -> i64 {
        let comes = limit.load_on(to, mass);
        let grows = comes.saturating_sub(limit.load_on(from, mass));
        if grows == 0 {
            return 0;
        }
        let load = load_of(self.load, limit, self.path.as_slice());
        broken_more(load.saturating_sub(limit.room), grows)
    }

    /// By how many kilograms more limits are broken, where a mass goes from one position to another.
    fn limits_change(&self, mass: i64, from: u8, to: u8) -> i64 {
        let mut change: i64 = 0;
        for limit in self.load.limits.as_slice() {
            change = change.saturating_add(self.limit_change(limit, mass, from, to));
        }
        change
    }

    /// By how much more positions are excluded, where a container goes to one that nobody has.
    fn exclusion_change(&self, rank: usize, from: u8, to: u8) -> i64 {
        let own = self.load.mass(rank).saturating_add(1);
        let left = self.excluded(from, from);
        let met = self.excluded(to, from).difference(one(to));
        let more = i64::from(met.size()) - i64::from(left.size());
        own.saturating_mul(more)
            .saturating_add(self.weight(met))
            .saturating_sub(self.weight(left))
    }

    /// How the breaks change where a container goes from one position to another, and its owner the other way.
    fn change(&self, rank: usize, other: Option<usize>, from: u8, to: u8) -> i64 {
        let mass = self.load.mass(rank);
        match other {
            Some(owner) => {
                let more = mass.saturating_sub(self.load.mass(owner));
                self.limits_change(more, from, to)
            }
            None => self
                .limits_change(mass, from, to)
                .saturating_add(self.exclusion_change(rank, from, to)),
        }
    }

    /// How far the hold index is from the ticks where a mass goes from one position to another.
    fn far_with(&self, mass: i64, from: u8, to: u8) -> i64 {
        let gap = self
            .load
            .influence(to)
            .saturating_sub(self.load.influence(from));
        let index = index_of(self.load, self.path.as_slice());
        let moment = mass.saturating_mul(gap);
        self.ticks.distance_to(index.saturating_add(moment))
    }

    /// Whether the owner of a position may exchange it with an earlier container's.
    fn may_exchange(&self, rank: usize, owner: usize, from: u8) -> bool {
        owner >= rank && has(set_at(self.sets, owner), from)
    }

    /// The move of a container to a position, where less is broken by it.
    fn mending(&self, rank: usize, to: u8) -> Option<Mending> {
        let from = number_at(&self.path, rank);
        let other = self.owner(to);
        let mut mass = self.load.mass(rank);
        if let Some(owner) = other {
            if !self.may_exchange(rank, owner, from) {
                return None;
            }
            mass = mass.saturating_sub(self.load.mass(owner));
        }
        let change = self.change(rank, other, from, to);
        if change >= 0 {
            return None;
        }
        Some(Mending {
            change,
            far: self.far_with(mass, from, to),
            rank,
            to,
            other,
        })
    }

    /// The best of what there was and the moves of the container at a rank.
    fn best_at(&self, rank: usize, set: PositionSet, best: Option<Mending>) -> Option<Mending> {
        let mut best = best;
        let here = one(number_at(&self.path, rank));
        for number in each_of(set.difference(here)) {
            if let Some(mending) = self.mending(rank, number) {
                best = Some(better(best, mending));
            }
        }
        best
    }

    /// The move by which least is broken.
    fn best(&self) -> Option<Mending> {
        let mut best = None;
        for (rank, set) in self.sets.iter().enumerate() {
            if set.only().is_none() {
                best = self.best_at(rank, *set, best);
            }
        }
        best
    }

    fn apply(&mut self, mending: Mending) {
        let from = number_at(&self.path, mending.rank);
        put(&mut self.path, mending.rank, mending.to);
        if let Some(owner) = mending.other {
            put(&mut self.path, owner, from);
        }
        self.used = used_by(self.path.as_slice());
    }
}

/// The better of a mending, if there is one, and another; the first where they are equal.
fn better(best: Option<Mending>, other: Mending) -> Mending {
    match best {
        Some(best) if best <= other => best,
        _ => other,
    }
}

/// A sound path by moves of containers within their sets from one that is not, each of which breaks less.
pub fn mend(load: &Load, sets: &[PositionSet], ticks: TickSpan, path: &Path) -> Option<Path> {
    let mut broken = Broken {
        load,
        sets,
        ticks,
        path: copy_of(path),
        used: used_by(path.as_slice()),
    };
    for _ in 0..MOST_MOVES {
        if sound_index(load, broken.path.as_slice()).is_some() {
            return Some(broken.path);
        }
        let mending = broken.best()?;
        broken.apply(mending);
    }
    None
}
