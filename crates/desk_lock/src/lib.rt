//! The turn lock: several desks call one machine, one turn at a time, in the order of the tickets that they draw.
//!
//! A [`Room`] is started over a [`Machine`] with up to eight [`Desk`]s, which may go to threads of their own. Each call
//! of a desk draws a ticket, waits until that ticket is served, and takes one turn of the machine. So the machine has
//! one history, in which the place of a call's entry is its ticket; each desk has seen it up to its own last entry;
//! and closing the room hands the machine back with the whole of it.
#![tactic(auto)]

mod board;
mod desk;
mod desk_steps;
mod machine;
mod room;
mod room_steps;
mod seating;
mod tally;
mod views;

pub use desk::{Desk, Full};
pub use machine::Machine;
pub use room::{Room, StartRefused};
pub use tally::{Tally, TallyEntry};
pub use views::Origin;
