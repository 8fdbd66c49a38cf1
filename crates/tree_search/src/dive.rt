//! The least of the paths that are as near as any, with a tree for each smaller neighbour.

use base_words::NoMemory;
use finder_prices::Pair;
use finder_tables::{Path, copy_of, each_of, exchange, number_at, one, put, rising, set_at};
use hold_choices::Choices;
use std::alloc::Global;
use tree_certificate::Sibling;
use tree_finder::{Finder, Verdict};

/// How far the search for the least path has come.
#[derive(Drop)]
struct Dive {
    /// The positions that are settled.
    front: Path,
    /// A path among the ticks that begins with them.
    goal: Path,
    /// The smaller neighbours so far.
    siblings: Vec<Sibling>,
    /// The prices to begin with: those of the last choice that was open.
    from: Pair,
}

/// The path with a number at a rank, which it exchanges for the one there.
fn with_number(path: &Path, rank: usize, number: u8) -> Path {
    let mut other = copy_of(path);
    match path.as_slice().iter().position(|own| *own == number) {
        Some(place) => exchange(&mut other, rank, place),
        None => put(&mut other, rank, number),
    }
    other
}

impl Dive {
    /// Tries whether a path among the choice is among the ticks. Whether there is; none where the looks are spent.
    fn is_open(
        &mut self,
        finder: &mut Finder<'_>,
        choice: Choices,
        number: u8,
    ) -> Result<Option<bool>, NoMemory> {
        let rank = self.front.len();
        let other = with_number(&self.goal, rank, number);
        match finder.refute(choice, &self.from, Some(&other))? {
            Verdict::Refuted(operations) => {
                self.siblings.push(Sibling {
                    rank: u8::try_from(rank).unwrap_or(u8::MAX),
                    position: number,
                    operations,
                })?;
                Ok(Some(false))
            }
            Verdict::Found(path) => {
                self.goal = rising(finder.ground.load, &path);
                if let Some(own) = finder.take_own_prices() {
                    self.from = own;
                }
                Ok(Some(true))
            }
            Verdict::Spent => Ok(None),
        }
    }

    /// The least number at the next rank with which a path is among the ticks. None where the looks are spent.
    fn next_number(
        &mut self,
        finder: &mut Finder<'_>,
        full: &Choices,
    ) -> Result<Option<u8>, NoMemory> {
        let rank = self.front.len();
        let Some(choice) = finder.ground.opened(full.fixed(self.front.as_slice())) else {
            return Ok(None);
        };
        for number in each_of(set_at(choice.sets(), rank)) {
            if number == number_at(&self.goal, rank) {
                return Ok(Some(number));
            }
            let Some(begun) = finder.ground.opened(choice.kept(rank, one(number))) else {
                continue;
            };
            match self.is_open(finder, begun, number)? {
                Some(true) => return Ok(Some(number)),
                Some(false) => {}
                None => return Ok(None),
            }
        }
        Ok(None)
    }
}

/// The least path among the ticks, from one of them and from prices, if there are some for these ticks, with a tree for each
/// smaller neighbour. None where the looks are spent.
pub fn least(
    alloc: Global,
    finder: &mut Finder<'_>,
    full: &Choices,
    path: Path,
    opening: Option<Pair>,
) -> Result<Option<(Path, Vec<Sibling>)>, NoMemory> {
    let from = match opening {
        Some(opening) => opening,
        None => finder.opening_prices(full)?,
    };
    let count = path.len();
    let mut dive = Dive {
        front: Path::new(),
        goal: rising(finder.ground.load, &path),
        siblings: Vec::new(alloc),
        from,
    };
    for _ in 0..count {
        let Some(number) = dive.next_number(finder, full)? else {
            return Ok(None);
        };
        let _ = dive.front.try_push(number);
    }
    Ok(Some((dive.front, dive.siblings)))
}
