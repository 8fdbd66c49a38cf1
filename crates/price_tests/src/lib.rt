//! Tests of the tight reach and of prices, beside the plain program over all ways. They stand apart, since a crate with
//! tests is proved twice.
#![tactic(auto)]

#[cfg(test)]
mod brackets;
#[cfg(test)]
mod plain_ways;
#[cfg(test)]
mod tight;
