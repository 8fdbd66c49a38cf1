//! The search for a tree of reasons why no path among a choice has its hold index among some ticks, or for such a path. It
//! looks at one choice after another: by prices it refutes it or takes positions from it, and what is left it splits in two. A
//! choice with few paths it closes without prices of its own, by remainders, which are what tells apart single ticks.
//! No answer is promised, since what is found is checked before it is told.
#![tactic(auto)]

mod bars;
mod closed;
mod closing;
mod cuts;
mod finder;
mod ground;
mod ledger;
mod loads;
mod narrowing;
mod opening;
mod showing;

pub use finder::{Finder, Verdict};
pub use ground::Ground;
pub use loads::load_for;
