//! What containers cost on positions.

ghost use Rattle.std.specs.Prelude.{◌<◌};

use arrayvec::ArrayVec;
use finder_tables::{End, Limit, Load, each_of};
use position_set::PositionSet;

/// Costs are plainly within the numbers where no mass is greater than this,
const SMALL_MASS: i64 = 1 << 20;

/// no rate than this,
const SMALL_RATE: i64 = 1 << 41;

/// and no fee than this, which is as much as the two come to.
const SMALL_FEE: i64 = 1 << 61;

/// The place of a number in a table.
fn slot(number: u8) -> usize
    ensures { result < 64 }
{
    usize::from(number % 64)
}

/// A container costs a rate for each kilogram on its position, and a fee.
#[derive(Clone, Copy, Debug)]
pub struct Costs {
    rates: [i64; 64],
    fees: [i64; 64],
    /// No rate, and no fee, is further from zero.
    most_rate: i64,
    most_fee: i64,
}

impl Costs {
    /// Without prices: the influences, counted from an end.
    pub fn free(load: &Load, end: End) -> Costs {
        let mut rates = [0; 64];
        let mut most_rate = 0;
        for (rate, place) in rates.iter_mut().zip(load.places.as_slice()) {
            *rate = end.counted(place.influence);
            most_rate = rate.saturating_abs().max(most_rate);
        }
        Costs {
            rates,
            fees: [0; 64],
            most_rate,
            most_fee: 0,
        }
    }

    /// Adds a fee on each of some positions.
    pub fn charge(&mut self, places: PositionSet, price: i64) {
        self.most_fee = self.most_fee.saturating_add(price.saturating_abs());
        for number in each_of(places) {
            let place = usize::from(number);
            self.fees[place] = self.fees[place].saturating_add(price);
        }
    }

    /// Adds to each position a fee of its own.
    pub fn charge_each(&mut self, prices: &[i64; 64]) {
        let mut most: i64 = 0;
        for number in 0..64 {
            self.fees[number] = self.fees[number].saturating_add(prices[number]);
            most = most.max(prices[number].saturating_abs());
        }
        self.most_fee = self.most_fee.saturating_add(most);
    }

    /// Adds a fee on a position. It wraps where it is too great for a number.
    pub fn raise_fee(&mut self, number: u8, price: i64) {
        let place = slot(number);
        self.fees[place] = self.fees[place].wrapping_add(price);
        self.most_fee = self.most_fee.saturating_add(price.saturating_abs());
    }

    fn add_rate(&mut self, places: PositionSet, price: i64) {
        self.most_rate = self.most_rate.saturating_add(price.saturating_abs());
        for number in each_of(places) {
            let place = usize::from(number);
            self.rates[place] = self.rates[place].saturating_add(price);
        }
    }

    /// Adds a price for each kilogram under a limit.
    pub fn add_limit(&mut self, limit: &Limit, price: i64) {
        self.add_rate(limit.counted, price);
        self.add_rate(limit.discounted, price.saturating_neg());
    }

    /// Whether it is plain that no cost of a container of a mass is too great for a number.
    fn fits(&self, mass: i64) -> bool {
        let is_small = 0 <= mass && mass <= SMALL_MASS;
        is_small && self.most_rate <= SMALL_RATE && self.most_fee <= SMALL_FEE
    }

    /// What a container of a mass costs on a position.
    pub fn cost(&self, mass: i64, number: u8) -> i64 {
        let place = slot(number);
        if self.fits(mass) {
            self.wrapped(mass, number)
        } else {
            mass.saturating_mul(self.rates[place])
                .saturating_add(self.fees[place])
        }
    }

    /// The same where that is not too great for a number. Elsewhere it wraps.
    pub fn wrapped(&self, mass: i64, number: u8) -> i64 {
        let place = slot(number);
        mass.wrapping_mul(self.rates[place])
            .wrapping_add(self.fees[place])
    }

    /// The least that a container of a mass costs on one of some positions; more than anything where there is none.
    pub fn least(&self, mass: i64, set: PositionSet) -> i64 {
        let mut least = i64::MAX;
        for number in each_of(set) {
            least = least.min(self.cost(mass, number));
        }
        least
    }

    /// How much the costs of a container differ on its positions.
    pub fn spread(&self, mass: i64, set: PositionSet) -> i64 {
        let mut greatest = i64::MIN;
        for number in each_of(set) {
            greatest = greatest.max(self.cost(mass, number));
        }
        greatest.saturating_sub(self.least(mass, set)).max(0)
    }

    /// The positions on which a container of a mass costs at most so much.
    pub fn at_most(&self, mass: i64, set: PositionSet, most: i64) -> PositionSet {
        let mut kept = set;
        for number in each_of(set) {
            if self.cost(mass, number) > most {
                kept = kept.without(number);
            }
        }
        kept
    }

    /// The positions on which a container of a mass costs at most so much more than the least.
    pub fn cheap(&self, mass: i64, set: PositionSet, slack: i64) -> PositionSet {
        self.at_most(mass, set, self.least(mass, set).saturating_add(slack))
    }

    /// The least cost of each container over a choice.
    pub fn each_least(&self, load: &Load, sets: &[PositionSet]) -> ArrayVec<i64, 60> {
        let mut leasts = ArrayVec::new();
        for (container, set) in load.containers.as_slice().iter().zip(sets) {
            let _ = leasts.try_push(self.least(container.mass, *set));
        }
        leasts
    }

    /// The least costs of all containers over a choice.
    pub fn leasts(&self, load: &Load, sets: &[PositionSet]) -> i64 {
        let mut sum: i64 = 0;
        for (container, set) in load.containers.as_slice().iter().zip(sets) {
            sum = sum.saturating_add(self.least(container.mass, *set));
        }
        sum
    }
}
