//! The prices that the operations of a search name.

use base_words::NoMemory;
use finder_prices::{Held, Prices};
use std::alloc::Global;
use tree_certificate::{End, Price, PriceList};

/// Lists of prices as a certificate has them.
#[derive(Drop)]
pub struct Ledger {
    lists: Vec<PriceList>,
    /// The number of the list of the prices with each serial, where they are listed.
    numbers: Vec<Option<u32>>,
}

/// The prices that are above zero.
fn listed(alloc: Global, prices: &[i64]) -> Result<Vec<Price>, NoMemory> {
    let mut list = Vec::new(alloc);
    for (of, price) in (0u32..1_000).zip(prices) {
        if *price > 0 {
            list.push(Price {
                of,
                price: price.unsigned_abs(),
            })?;
        }
    }
    Ok(list)
}

fn list_of(alloc: Global, prices: &Prices) -> Result<PriceList, NoMemory> {
    let end = match prices.end {
        finder_tables::End::Low => End::Low,
        finder_tables::End::High => End::High,
    };
    Ok(PriceList {
        end,
        positions: listed(alloc, &prices.positions)?,
        limits: listed(alloc, prices.limits.as_slice())?,
        cliques: listed(alloc, prices.cliques.as_slice())?,
    })
}

impl Ledger {
    /// Without a list.
    pub fn new(alloc: Global) -> Ledger {
        Ledger {
            lists: Vec::new(alloc),
            numbers: Vec::new(alloc),
        }
    }

    /// A serial for prices that are made next.
    pub fn next_serial(&mut self) -> Result<usize, NoMemory> {
        let serial = self.numbers.len();
        self.numbers.push(None)?;
        Ok(serial)
    }

    /// The number of the list of these prices, which is made if they have none.
    pub fn number_of(&mut self, alloc: Global, held: &Held) -> Result<u32, NoMemory> {
        if let Some(Some(number)) = self.numbers.as_slice().get(held.serial) {
            return Ok(*number);
        }
        let number = u32::try_from(self.lists.len()).unwrap_or(u32::MAX);
        self.lists.push(list_of(alloc, &held.prices)?)?;
        if let Some(place) = self.numbers.as_mut_slice().get_mut(held.serial) {
            *place = Some(number);
        }
        Ok(number)
    }

    /// The lists.
    pub fn into_lists(self) -> Vec<PriceList> {
        self.lists
    }
}
