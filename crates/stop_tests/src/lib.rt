//! Tests of the search over several sectors, beside the plain program over all paths. They stand apart, since a crate
//! with tests is proved twice.
#![tactic(auto)]

#[cfg(test)]
mod placements;
