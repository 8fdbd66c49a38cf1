//! The keys of an aircraft file: which of them nobody reads, and what each that is read is called and wanted to be.
//!
//! A reader of aircraft files skips each key that the grammar does not name. So a limit under a name with a letter too few
//! is no limit. The full name of a key has a dot between two keys, and in a list of tables the number of the table, from 1:
//! `hold.combind`, `position.7.fitz`, `envelope.landing.fwd`.
#![tactic(auto)]

mod fault;
mod grammar;
mod key_table;
mod sections;
mod skipping;
mod tables;

pub use fault::KeysFault;
pub use key_table::{key_name, wanted};
pub use skipping::{sides_without_limit, skipped_keys};
