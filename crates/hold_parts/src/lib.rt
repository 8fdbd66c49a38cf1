//! The parts of a hold and of a loading task: positions with the kinds and masses that they accept, combined and
//! cumulative limits, sides with a lateral limit, containers, loose loads, and their names and identities.
#![tactic(auto)]

mod accepting;
mod limit;
mod lists;
mod names;
mod parts;
mod repeats;
mod sameness;
mod spellings;
mod texts;

pub use limit::Limit;
pub use lists::{Fit, Fits, Places, Sides};
pub use names::PositionNames;
pub use parts::{Combined, Cumulative, Indices, Item, Lateral, Loose, Position};
pub use repeats::{Alike, first_repeat};
pub use sameness::{Same, are_same};
pub use spellings::is_kind;
pub use texts::{Name, UldId};
