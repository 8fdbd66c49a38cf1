//! Tests of the commands about a task, a load or a flight in transit, from their arguments to what is printed.
//! They stand apart, since a crate with tests is proved twice.
#![tactic(auto)]

#[cfg(test)]
mod outside;
#[cfg(test)]
mod plans;
#[cfg(test)]
mod prices;
#[cfg(test)]
mod runs;
#[cfg(test)]
mod stops;
#[cfg(test)]
mod transit;
#[cfg(test)]
mod trees;
#[cfg(test)]
mod why;
