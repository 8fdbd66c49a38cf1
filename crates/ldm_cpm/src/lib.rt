//! The two messages that a flight sends ahead, written and read: what is on board, and where it stands.
//!
//! A load message (LDM) says how many persons are on board and what the containers and loose loads weigh, by compartment:
//!
//! ```text
//! LDM
//! XX210/12.DAIAB.Y150.2/4
//! -ARN.120/10/3.T2120.1/1000.4/800.5/320.PAX/130
//! ```
//!
//! The second line names the flight, the day, the registration, the version, and the crew in the cockpit and in the cabin.
//! The third names the destination, adults, children and infants, the mass of all containers and loose loads after `T`, each
//! compartment that carries something with its mass, and adults and children together after `PAX`.
//!
//! A container message (CPM) has a line for each position of the hold, from nose to tail:
//!
//! ```text
//! CPM
//! XX210/12.DAIAB.Y150
//! -11/AKE10001XX/ARN/1000
//! -12/N
//! -41/N
//! -42/AKE10002XX/ARN/800
//! -51/ARN/320
//! ```
//!
//! It names the container with its destination and its mass, or the destination and the mass of a loose load, or `N` where
//! there is nothing.
//!
//! What is read borrows from the message: each part is a slice of it with its offset there, and nothing is copied.
#![tactic(auto)]

mod board;
mod compartments;
mod cpm_reader;
mod cpm_writer;
mod fault;
mod heads;
mod ldm_reader;
mod ldm_writer;
mod loads;
mod messages;
mod numbers;
mod places;
mod titles;

pub use cpm_reader::read_cpm;
pub use cpm_writer::write_cpm;
pub use fault::MsgFault;
pub use ldm_reader::read_ldm;
pub use ldm_writer::write_ldm;
pub use messages::{Cpm, CpmPlace, CpmPlaces, Head, Ldm, Loads};
