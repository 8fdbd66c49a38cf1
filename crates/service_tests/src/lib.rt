//! Tests of the office over one connection.
//! They stand apart, since a crate with tests is proved twice.
#![tactic(auto)]

#[cfg(test)]
mod cases;
#[cfg(test)]
mod days;
#[cfg(test)]
mod searches;
