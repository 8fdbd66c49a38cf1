//! Tests of the documents' crates: the loadsheet, load and container messages.
//! They stand apart, since a crate with tests is proved twice.
#![tactic(auto)]

#[cfg(test)]
mod load_messages;
#[cfg(test)]
mod loadsheets;
#[cfg(test)]
mod sheets;
