//! Tests of an office that several desks have together, and of the doors that they serve.
//! They stand apart, since a crate with tests is proved twice.
#![tactic(auto)]

#[cfg(test)]
mod doors;
#[cfg(test)]
mod examples;
#[cfg(test)]
mod flags;
#[cfg(test)]
mod full_room;
#[cfg(test)]
mod other_doors;
#[cfg(test)]
mod planning;
