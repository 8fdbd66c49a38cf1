//! The search for a tree, or for a path.

ghost use Rattle.std.specs.Prelude.{◌≡◌, ◌<◌, ◌+◌};

use crate::closed::Closed;
use crate::closing::Closing;
use crate::cuts::Cut;
use crate::ground::Ground;
use crate::ledger::Ledger;
use crate::opening::{free, opening_prices, raised};
use crate::showing::{append, append_all, firsts, show};
use base_words::NoMemory;
use finder_paths::{Met, is_among};
use finder_prices::{Held, Pair};
use finder_tables::{End, Path, TickSpan, load_of, sound_index};
use hold_choices::Choices;
use tree_certificate::{Operation, PriceList};

/// How many steps prices are raised at each look.
const STEPS: u32 = 10;

/// Paths near those that were met are tried at so many looks of a search, the first ones.
const FIRST_LOOKS: u32 = 20;

/// After that they are tried at one look of so many.
const LOOKS_APART: u32 = 16;

/// For each look that it is given, a search has so many steps to close choices.
const STEPS_FOR_LOOK: u32 = 100;

/// A choice is closed at once where its containers' influences can be chosen in no more ways, and the ticks span no more.
const MOST_WAYS: u64 = 67_108_864;

const MOST_SPAN: i64 = 100;

/// What the search in a choice ends with.
#[derive(Drop)]
pub enum Verdict {
    /// No path among the choice has its hold index among the ticks, by these operations.
    Refuted(Vec<Operation>),
    /// This one has.
    Found(Path),
    /// There are no looks left.
    Spent,
}

/// A choice that is left to look at, with the prices to begin with.
#[derive(Drop)]
struct Pending {
    choice: Choices,
    from: Pair,
}

/// A search for trees about some ticks.
#[derive(Drop)]
pub struct Finder<'a> {
    pub ground: Ground<'a>,
    /// The ticks that the trees are about.
    pub ticks: TickSpan,
    /// How many choices may still be looked at.
    looks: u32,
    /// How many steps there are to close choices, all together.
    steps: u32,
    ledger: Ledger,
    met: Met,
    /// The own prices of the first choice of the last search, where a look left it open.
    own: Option<Pair>,
    /// What closes choices of few paths, where there was one.
    closing: Option<Closing>,
}

impl<'a> Finder<'a> {
    /// A search that has so many looks.
    pub fn new(ground: Ground<'a>, looks: u32) -> Finder<'a> {
        Finder {
            ticks: ground.load.window,
            ledger: Ledger::new(ground.alloc),
            ground,
            looks,
            steps: looks.saturating_mul(STEPS_FOR_LOOK),
            met: Met::nothing(),
            own: None,
            closing: None,
        }
    }

    /// Prices for a choice to begin with, as good as they get.
    pub fn opening_prices(&mut self, choice: &Choices) -> Result<Pair, NoMemory> {
        opening_prices(&self.ground, choice, self.ticks, &mut self.ledger)
    }

    /// The own prices of the choice that was last to be refuted, where a look left it open.
    pub fn take_own_prices(&mut self) -> Option<Pair> {
        self.own.take()
    }

    /// The lists of prices that the operations name.
    pub fn into_lists(self) -> Vec<PriceList> {
        self.ledger.into_lists()
    }

    /// What prices show of a choice: they refute it, or take positions from it. Whether they do.
    fn test(
        &mut self,
        held: &Held,
        choice: &mut Choices,
        tree: &mut Vec<Operation>,
    ) -> Result<bool, Closed>
        ensures { self.new.looks ≡ self.old.looks }
    {
        show(
            &self.ground,
            self.ticks,
            &mut self.ledger,
            held,
            choice,
            tree,
        )
    }

    /// Prices raised for a choice, and whether they take positions from it.
    fn raised(
        &mut self,
        from: &Held,
        choice: &mut Choices,
        tree: &mut Vec<Operation>,
    ) -> Result<(Held, bool), Closed>
        ensures { self.new.looks ≡ self.old.looks }
    {
        let goal = self.ticks.goal(from.prices.end);
        let mut paths = Vec::new(self.ground.alloc);
        let serial = self.ledger.next_serial()?;
        let held = raised(&self.ground, choice, goal, from, STEPS, serial, &mut paths)?;
        let load = self.ground.load;
        if let Some(found) = self.met.note_all(load, self.ticks, paths.as_slice()) {
            return Err(Closed::Found(found));
        }
        let trimmed = self.test(&held, choice, tree)?;
        Ok((held, trimmed))
    }

    /// Prices raised for a choice from both ends, and whether they take positions from it.
    fn raised_pair(
        &mut self,
        from: &Pair,
        choice: &mut Choices,
        tree: &mut Vec<Operation>,
    ) -> Result<(Pair, bool), Closed>
        ensures { self.new.looks ≡ self.old.looks }
    {
        let (low, by_low) = self.raised(&from.low, choice, tree)?;
        let (high, by_high) = self.raised(&from.high, choice, tree)?;
        Ok((Pair { low, high }, by_low || by_high))
    }

    /// Takes what closes choices of few paths.
    fn take_closing(&mut self) -> Result<Closing, NoMemory>
        ensures { self.new.looks ≡ self.old.looks }
    {
        match self.closing.take() {
            Some(closing) => Ok(closing),
            None => Closing::of(&self.ground, &mut self.ledger, self.steps),
        }
    }

    /// Refutes a choice of few paths for few ticks by given prices, or finds a path among it, unless that takes too long.
    fn close(
        &mut self,
        from: &Pair,
        choice: &Choices,
        tree: &mut Vec<Operation>,
    ) -> Result<(), Closed>
        ensures { self.new.looks ≡ self.old.looks }
    {
        let span = self.ticks.high.saturating_sub(self.ticks.low);
        if span > MOST_SPAN || self.ground.ways(choice) > MOST_WAYS {
            return Ok(());
        }
        let mut closing = self.take_closing()?;
        let ledger = &mut self.ledger;
        let closed = closing.close(&self.ground, self.ticks, ledger, from, choice);
        self.closing = Some(closing);
        match closed? {
            Some(operations) => {
                append_all(tree, operations.as_slice())?;
                Err(Closed::Refuted)
            }
            None => Ok(()),
        }
    }

    /// One look at a choice: what given prices show, then prices of its own, and the remainder. The prices of its own.
    fn look(
        &mut self,
        from: &Pair,
        choice: &mut Choices,
        tree: &mut Vec<Operation>,
    ) -> Result<Pair, Closed>
        ensures { self.new.looks ≡ self.old.looks }
    {
        self.met = Met::nothing();
        self.test(&from.low, choice, tree)?;
        self.test(&from.high, choice, tree)?;
        let (first, trimmed) = self.raised_pair(from, choice, tree)?;
        let own = if trimmed {
            self.raised_pair(&first, choice, tree)?.0
        } else {
            first
        };
        if self.ground.is_missed(self.ticks, choice) {
            append(tree, Operation::Residue)?;
            return Err(Closed::Refuted);
        }
        Ok(own)
    }

    /// A path near those that were met, and near another one.
    fn near(&self, choice: &Choices, other: Option<&Path>) -> Result<Option<Path>, NoMemory> {
        if let Some(path) = other {
            if let Some(found) = self.ground.reached(choice, self.ticks, path)? {
                return Ok(Some(found));
            }
        }
        if let Some((_, path)) = &self.met.nearest {
            if let Some(found) = self.ground.reached(choice, self.ticks, path)? {
                return Ok(Some(found));
            }
        }
        match &self.met.broken {
            Some(path) => self.ground.mended(choice, self.ticks, path),
            None => Ok(None),
        }
    }

    /// Looks for a path among the choice near those that were met, and near another one.
    fn look_near(&self, choice: &Choices, other: Option<&Path>) -> Result<(), Closed> {
        match self.near(choice, other)? {
            Some(path) if is_among(choice.sets(), &path) => Err(Closed::Found(path)),
            _ => Ok(()),
        }
    }

    /// The price of a limit alone by which a path passes the ticks that breaks the limit by so much.
    fn price_of_broken(
        &mut self,
        choice: &Choices,
        number: usize,
        excess: i64,
    ) -> Result<Held, NoMemory>
        ensures { self.new.looks ≡ self.old.looks }
    {
        let load = self.ground.load;
        let serial = self.ledger.next_serial()?;
        let mut held = free(self.ground.alloc, load, End::Low, serial)?;
        let value = held.value(load, choice.sets());
        let short = self.ticks.goal(End::Low).saturating_sub(value).max(0);
        let price = short.checked_div(excess).unwrap_or(0).saturating_add(1);
        if let Some(place) = held.prices.limits.as_mut_slice().get_mut(number) {
            *place = price;
        }
        held.costs = held.prices.costs(load);
        Ok(held)
    }

    /// The first limit that a path breaks, and by how much.
    fn broken_limit(&self, path: &Path) -> Option<(usize, i64)> {
        let load = self.ground.load;
        for (number, limit) in load.limits.as_slice().iter().enumerate() {
            let excess = load_of(load, limit, path.as_slice()).saturating_sub(limit.room);
            if excess > 0 {
                return Some((number, excess));
            }
        }
        None
    }

    /// What becomes of a choice of one path: it is found, or refuted by a limit that it breaks.
    fn settle(&mut self, choice: &mut Choices, tree: &mut Vec<Operation>) -> Result<(), Closed>
        ensures { self.new.looks ≡ self.old.looks }
    {
        let path = firsts(choice);
        if let Some(index) = sound_index(self.ground.load, path.as_slice()) {
            if self.ticks.distance_to(index) == 0 {
                return Err(Closed::Found(path));
            }
        }
        let Some((number, excess)) = self.broken_limit(&path) else {
            return Err(Closed::Stuck);
        };
        let held = self.price_of_broken(choice, number, excess)?;
        self.test(&held, choice, tree)?;
        Err(Closed::Stuck)
    }

    /// Splits a choice in two that are left to look at.
    fn split(
        &self,
        choice: &Choices,
        cut: Cut,
        own: Pair,
        tree: &mut Vec<Operation>,
        left: &mut Vec<Pending>,
    ) -> Result<(), NoMemory> {
        let rank = u8::try_from(cut.rank).unwrap_or(u8::MAX);
        append(tree, Operation::Split(rank, cut.first))?;
        if let Some(other) = self.ground.opened(choice.dropped(cut.rank, cut.first)) {
            let from = own.clone()?;
            left.push(Pending {
                choice: other,
                from,
            })?;
        }
        if let Some(first) = self.ground.opened(choice.kept(cut.rank, cut.first)) {
            left.push(Pending {
                choice: first,
                from: own,
            })?;
        }
        Ok(())
    }

    /// Keeps the own prices of the first choice of a search.
    fn note_own(&mut self, own: &Pair, is_first: bool) -> Result<(), NoMemory>
        ensures { self.new.looks ≡ self.old.looks }
    {
        if is_first {
            self.own = Some(own.clone()?);
        }
        Ok(())
    }

    /// Looks at the choice of this number in a search, with a path near which one may be among it, and splits what is left
    /// of it. It takes one from the looks that are left.
    fn visit(
        &mut self,
        pending: Pending,
        other: Option<&Path>,
        tree: &mut Vec<Operation>,
        left: &mut Vec<Pending>,
        number: u32,
    ) -> Result<(), Closed>
        requires { 0 < self.old.looks }
        ensures { self.new.looks + 1 ≡ self.old.looks }
    {
        let Pending { mut choice, from } = pending;
        self.looks -= 1;
        self.close(&from, &choice, tree)?;
        let own = self.look(&from, &mut choice, tree)?;
        self.note_own(&own, number == 0)?;
        if number < FIRST_LOOKS || number % LOOKS_APART == 0 {
            self.look_near(&choice, other)?;
        }
        match self.ground.best_cut(&choice) {
            Some(cut) => self.split(&choice, cut, own, tree, left)?,
            None => self.settle(&mut choice, tree)?,
        }
        Ok(())
    }

    /// The choices that are left to look at in the beginning.
    fn begun(&self, choice: Choices, from: &Pair) -> Result<Vec<Pending>, NoMemory> {
        let mut left = Vec::new(self.ground.alloc);
        if let Some(open) = self.ground.opened(choice) {
            let from = from.clone()?;
            left.push(Pending { choice: open, from })?;
        }
        Ok(left)
    }

    /// Refutes a choice for the ticks, or finds a path among it, at first near another one.
    pub fn refute(
        &mut self,
        choice: Choices,
        from: &Pair,
        other: Option<&Path>,
    ) -> Result<Verdict, NoMemory> {
        self.own = None;
        let mut tree = Vec::new(self.ground.alloc);
        let mut left = self.begun(choice, from)?;
        let mut hint = other;
        for number in 0..=self.looks {
            let Some(pending) = left.pop() else {
                return Ok(Verdict::Refuted(tree));
            };
            if self.looks == 0 {
                return Ok(Verdict::Spent);
            }
            match self.visit(pending, hint, &mut tree, &mut left, number) {
                Ok(()) | Err(Closed::Refuted) => hint = None,
                Err(Closed::Found(path)) => return Ok(Verdict::Found(path)),
                Err(Closed::Stuck) => return Ok(Verdict::Spent),
                Err(Closed::NoMemory) => return Err(NoMemory),
            }
        }
        Ok(Verdict::Spent)
    }
}
