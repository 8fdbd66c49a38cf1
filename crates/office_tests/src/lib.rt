//! Tests of the office.
//! They stand apart, since a crate with tests is proved twice.
#![tactic(auto)]

#[cfg(test)]
mod many_rows;
#[cfg(test)]
mod offices;
