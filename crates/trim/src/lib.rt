//! A flight in figures: its loading task, its balance, and the rules that it breaks.
//!
//! The figures of a flight are what the desk is told of it: the dry aircraft, its fuel, the regulated masses, its
//! cabin, its containers and its loose loads. With the numbers of the aircraft they give the masses and the indices of
//! the flight, by the index method of the FAA's Aircraft Weight and Balance Handbook (FAA-H-8083-1B): an index is the
//! sum of the indices of all that is on board. What is not yet decided is where the containers stand. So the figures
//! leave a window for the hold index, in which all three envelopes are kept, and that window is the loading task's.
//!
//! Masses are whole kilograms, indices ticks of 1/100000 index unit.
#![tactic(auto)]

mod balance;
mod fault;
mod figures;
mod laws;
mod limits;
mod lists;
mod loose;
mod rules;
mod task;
mod weighing;
mod window;

pub use balance::{Balance, state_of};
pub use fault::TrimFault;
pub use figures::{Dry, Figures, Fuel, LooseFigure, Regulated};
pub use laws::flight_laws;
pub use lists::{Items, LooseList};
pub use rules::{Rule, Rules, broken_rules};
pub use task::task_of;
