//! What the search by trees looks up of a task, and what placements come to by it. All of it answers for any number, with
//! nothing where the task has none, and its sums saturate: no answer is promised, since what the search finds by them is
//! checked before it is told.
#![tactic(auto)]

mod cliques;
mod load;
mod numbers;
mod paths;
mod sums;
mod ticks;

pub use cliques::{Cliques, cliques_of};
pub use load::{Container, Limit, Load, Place};
pub use numbers::{Numbers, each_of, has, one};
pub use paths::{Path, copy_of, exchange, number_at, put, set_at};
pub use sums::{Stowage, index_of, load_of, rising, sound_index, used_by};
pub use ticks::{End, TickSpan};
