//! Tests of the real things at the outside: the standard output, the standard input, files and ports.
//! They stand apart, since a crate with tests is proved twice.
#![tactic(auto)]

pub mod client;
#[cfg(test)]
mod files;
#[cfg(test)]
mod inputs;
#[cfg(test)]
mod machines;
#[cfg(test)]
mod outputs;
#[cfg(test)]
mod ports;
