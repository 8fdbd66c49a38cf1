//! Prices of a choice's own: raised step by step until their value is beyond the goal, or no longer grows.

use crate::costs::Costs;
use crate::excess::{Excess, Step, WHOLE, clique_excess, limit_excess};
use crate::matching::{Assigned, Ranks, assign};
use crate::opposed::cancel_opposed;
use crate::prices::{Held, Prices};
use crate::standing::{Standing, open_ranks, settled_load};
use base_words::NoMemory;
use finder_tables::{Limit, Load, Path, each_of, set_at};
use position_set::PositionSet;
use std::alloc::Global;

/// The greatest price of a kilogram that a step comes to.
const MOST_OF_LIMIT: i64 = 100_000_000;

/// The greatest price of a clique that a step comes to.
const MOST_OF_CLIQUE: i64 = 1_000_000_000_000;

/// The greatest price of a position.
const MOST_OF_POSITION: i64 = 10_000_000_000_000;

/// Past so many steps without much gain the prices are as good as they get.
const MOST_STALE: u32 = 12;

/// The load and choice for which prices are raised, and the value that they are to pass.
#[derive(Clone, Copy)]
pub struct Raising<'a> {
    pub alloc: Global,
    pub load: &'a Load,
    pub sets: &'a [PositionSet],
    pub goal: i64,
    /// The mean mass of a container: what a place in a clique weighs beside kilograms.
    pub unit: i64,
}

/// The best prices so far.
#[derive(Drop)]
struct Best {
    value: i64,
    held: Held,
}

/// What prices of limits and cliques come to.
#[derive(Drop)]
enum Priced {
    /// With the positions at their worth, their value, and the path that is cheapest by them.
    Whole { held: Held, value: i64, path: Path },
    /// Some containers have too few positions: prices by which that shows.
    Short(Held),
}

/// How far the steps have come.
#[derive(Drop)]
struct Pace {
    share: i128,
    stale: u32,
    best: Option<Best>,
}

impl Pace {
    fn best_value(&self) -> Option<i64> {
        match &self.best {
            Some(best) => Some(best.value),
            None => None,
        }
    }

    /// Notes prices with a value, on the way to a goal.
    fn note(&mut self, value: i64, held: Held, goal: i64) {
        match self.best_value() {
            Some(best) if value <= best => {
                self.share = self.share.saturating_mul(7) / 10;
                self.stale = self.stale.saturating_add(1);
                return;
            }
            Some(best) if value.saturating_sub(best) < goal.saturating_sub(best) / 50 => {
                self.stale = self.stale.saturating_add(1);
            }
            _ => self.stale = 0,
        }
        self.best = Some(Best { value, held });
    }
}

/// The path that the positions of containers and the first of the others' sets make.
fn path_of(sets: &[PositionSet], places: &[Option<u8>; 64]) -> Path {
    let mut path = Path::new();
    for (set, place) in sets.iter().zip(places) {
        let _ = path.try_push(place.or(set.first()).unwrap_or(0));
    }
    path
}

/// Gives the same price to each of some positions.
fn price_all(prices: &mut [i64; 64], places: PositionSet, price: i64) {
    for number in each_of(places) {
        prices[usize::from(number)] = price;
    }
}

impl Raising<'_> {
    /// Drops the prices of cliques that are not live.
    fn drop_cliques(&self, standing: &Standing, prices: &mut [i64]) {
        for (price, clique) in prices.iter_mut().zip(self.load.cliques.as_slice()) {
            if !standing.is_live(*clique) {
                *price = 0;
            }
        }
    }

    /// Whether the containers that have one position alone keep a limit.
    fn is_kept(&self, limit: &Limit) -> bool {
        settled_load(self.load, self.sets, limit) <= limit.room
    }

    /// Drops the prices of limits that no open container touches and that hold.
    fn drop_limits(&self, standing: &Standing, prices: &mut [i64]) {
        for (price, limit) in prices.iter_mut().zip(self.load.limits.as_slice()) {
            if *price != 0 && !standing.touches(limit) && self.is_kept(limit) {
                *price = 0;
            }
        }
    }

    /// What a path asks for more than there is, at some prices.
    fn excess(
        &self,
        standing: &Standing,
        prices: &Prices,
        path: &[u8],
    ) -> Result<Excess, NoMemory> {
        let (limits, cliques) = (prices.limits.as_slice(), prices.cliques.as_slice());
        Ok(Excess {
            limits: limit_excess(self.alloc, self.load, limits, path)?,
            cliques: clique_excess(
                self.alloc,
                self.load.cliques.as_slice(),
                standing,
                self.unit,
                cliques,
                path,
            )?,
        })
    }

    /// Takes one step of the prices towards the goal along what a path has in excess. False where it has none.
    fn step(
        &self,
        prices: &mut Prices,
        standing: &Standing,
        path: &Path,
        share: i128,
        value: i64,
    ) -> Result<bool, NoMemory> {
        let excess = self.excess(standing, prices, path.as_slice())?;
        let norm = excess.norm();
        if norm == 0 {
            return Ok(false);
        }
        let gap = self.goal.saturating_sub(value).min(40_000_000).max(1_000);
        let force = share.saturating_mul(i128::from(gap));
        let of_limits = Step {
            force,
            norm,
            most: MOST_OF_LIMIT,
        };
        let of_cliques = Step {
            force: force.saturating_mul(i128::from(self.unit)),
            norm,
            most: MOST_OF_CLIQUE,
        };
        of_limits.take(prices.limits.as_mut_slice(), excess.limits.as_slice());
        of_cliques.take(prices.cliques.as_mut_slice(), excess.cliques.as_slice());
        cancel_opposed(self.load.limits.as_slice(), prices.limits.as_mut_slice());
        Ok(true)
    }

    /// A price that is high enough for positions of which there are too few for these containers.
    fn high_price(&self, costs: &Costs, ranks: &Ranks, need: i64) -> i64 {
        let mut price = need;
        for rank in ranks.as_slice() {
            let rank = usize::from(*rank);
            let spread = costs.spread(self.load.mass(rank), set_at(self.sets, rank));
            price = price.saturating_add(spread);
        }
        price.min(MOST_OF_POSITION)
    }

    /// Prices by which containers that have too few positions pass the goal: one high price for these positions.
    fn too_few(
        &self,
        prices: &Prices,
        costs: Costs,
        ranks: &Ranks,
        places: PositionSet,
        serial: usize,
    ) -> Result<Held, NoMemory> {
        let held = Held {
            prices: prices.clone()?,
            costs,
            serial,
        };
        let short = self.goal.saturating_sub(held.value(self.load, self.sets));
        let need = short.saturating_add(1).max(1).min(1_000_000_000_000);
        let price = self.high_price(&costs, ranks, need);
        let mut high = held;
        price_all(&mut high.prices.positions, places, price);
        high.costs = high.prices.costs(self.load);
        Ok(high)
    }

    /// Prices of limits and cliques, with each position at its worth in the cheapest assignment by them.
    fn priced(&self, prices: &Prices, ranks: &Ranks, serial: usize) -> Result<Priced, NoMemory> {
        let mut costs = prices.shared_costs(self.load);
        match assign(self.load, self.sets, &costs, ranks) {
            Assigned::Whole { places, worth } => {
                let mut own = prices.clone()?;
                own.positions = worth;
                costs.charge_each(&worth);
                let held = Held {
                    prices: own,
                    costs,
                    serial,
                };
                Ok(Priced::Whole {
                    value: held.value(self.load, self.sets),
                    path: path_of(self.sets, &places),
                    held,
                })
            }
            Assigned::Short { ranks, places } => {
                let held = self.too_few(prices, costs, &ranks, places, serial)?;
                Ok(Priced::Short(held))
            }
        }
    }

    /// The prices from which others are raised, without those that are idle.
    fn start(&self, from: &Prices, standing: &Standing) -> Result<Prices, NoMemory> {
        let mut prices = from.clone()?;
        self.drop_cliques(standing, prices.cliques.as_mut_slice());
        self.drop_limits(standing, prices.limits.as_mut_slice());
        prices.positions = [0; 64];
        Ok(prices)
    }

    /// Prices raised from some, in at most so many steps. The paths that were met on the way are added.
    pub fn raise(
        &self,
        from: &Prices,
        steps: u32,
        serial: usize,
        met: &mut Vec<Path>,
    ) -> Result<Held, NoMemory> {
        let standing = Standing::of(self.sets);
        let ranks = open_ranks(self.sets);
        let mut prices = self.start(from, &standing)?;
        let mut pace = Pace {
            share: WHOLE,
            stale: 0,
            best: None,
        };
        for step in 0..=steps {
            let (held, value, path) = match self.priced(&prices, &ranks, serial)? {
                Priced::Whole { held, value, path } => (held, value, path),
                Priced::Short(held) => return Ok(held),
            };
            pace.note(value, held, self.goal);
            let is_last = value > self.goal || step == steps || pace.stale > MOST_STALE;
            let is_over = is_last || !self.step(&mut prices, &standing, &path, pace.share, value)?;
            met.push(path)?;
            if is_over {
                break;
            }
        }
        match pace.best {
            Some(best) => Ok(best.held),
            None => Ok(Held {
                costs: prices.costs(self.load),
                prices,
                serial,
            }),
        }
    }
}
