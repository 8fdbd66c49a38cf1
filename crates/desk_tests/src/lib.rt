//! Tests of the desk's crates: what the history of an office says, routes, bodies, requests and answers.
//! They stand apart, since a crate with tests is proved twice.
#![tactic(auto)]

#[cfg(test)]
mod answers;
#[cfg(test)]
mod bodies;
#[cfg(test)]
mod histories;
#[cfg(test)]
mod requests;
#[cfg(test)]
mod routes;
