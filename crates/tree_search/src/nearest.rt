//! The least distance of a path, with the tree that no path is nearer.

use base_words::NoMemory;
use finder_prices::Pair;
use finder_tables::{Load, Path, TickSpan, index_of};
use hold_choices::Choices;
use std::alloc::Global;
use tree_certificate::Operation;
use tree_finder::{Finder, Verdict};

/// A path that is as near as any, where there is one, and a tree that none is nearer.
#[derive(Drop)]
pub struct Nearest {
    pub path: Option<Path>,
    pub tree: Vec<Operation>,
    /// The prices with which the search among the ticks at the path's own distance began, where there was one.
    pub opening: Option<Pair>,
}

/// How far the index of a path lies from the ideal, in ticks.
pub fn distance_of(load: &Load, path: &Path) -> i64 {
    load.ideal.distance_to(index_of(load, path.as_slice()))
}

/// A path from which no other one at half its distance is reached, by moves from a path.
fn closer(finder: &Finder<'_>, full: &Choices, path: Path) -> Result<Path, NoMemory> {
    let load = finder.ground.load;
    let mut best = path;
    for _ in 0..64 {
        let distance = distance_of(load, &best);
        let ticks = load.ticks_within(distance / 2);
        if distance == 0 || ticks.is_empty() {
            break;
        }
        match finder.ground.reached(full, ticks, &best)? {
            Some(next) => best = next,
            None => break,
        }
    }
    Ok(best)
}

/// One search for a path among the ticks.
fn search(finder: &mut Finder<'_>, full: &Choices, ticks: TickSpan) -> Result<Verdict, NoMemory> {
    finder.ticks = ticks;
    let from = finder.opening_prices(full)?;
    finder.refute(full.copy(), &from, None)
}

/// The nearest path, where none is at the ideal: one after another that is nearer, in at most so many searches, until none
/// is. None where the looks are spent before that.
fn narrow_down(
    alloc: Global,
    finder: &mut Finder<'_>,
    full: &Choices,
    searches: u32,
) -> Result<Option<Nearest>, NoMemory> {
    let load = finder.ground.load;
    let mut path: Option<Path> = None;
    let mut ticks = load.window;
    for _ in 0..=searches {
        if ticks.is_empty() {
            return Ok(Some(Nearest {
                path,
                tree: Vec::new(alloc),
                opening: None,
            }));
        }
        match search(finder, full, ticks)? {
            Verdict::Refuted(tree) => {
                return Ok(Some(Nearest {
                    path,
                    tree,
                    opening: None,
                }));
            }
            Verdict::Found(found) => {
                let best = closer(finder, full, found)?;
                ticks = load.ticks_nearer(distance_of(load, &best));
                path = Some(best);
            }
            Verdict::Spent => return Ok(None),
        }
    }
    Ok(None)
}

/// The nearest path: one at the ideal, or else the nearest by so many searches. None where the looks are spent before that.
pub fn find_nearest(
    alloc: Global,
    finder: &mut Finder<'_>,
    full: &Choices,
    searches: u32,
) -> Result<Option<Nearest>, NoMemory> {
    let load = finder.ground.load;
    let ideal = load.ticks_within(0);
    if ideal.is_empty() {
        return narrow_down(alloc, finder, full, searches);
    }
    finder.ticks = ideal;
    let opening = finder.opening_prices(full)?;
    match finder.refute(full.copy(), &opening, None)? {
        Verdict::Refuted(_) => narrow_down(alloc, finder, full, searches),
        Verdict::Found(path) => Ok(Some(Nearest {
            path: Some(path),
            tree: Vec::new(alloc),
            opening: Some(opening),
        })),
        Verdict::Spent => Ok(None),
    }
}
