//! Tests of the crates of trees: choices of positions, what the search looks up, prices, moves of containers,
//! remainders, texts of certificates.
//! They stand apart, since a crate with tests is proved twice.
#![tactic(auto)]

#[cfg(test)]
use case_rows::{Subject, check};
#[cfg(test)]
use std::alloc::Global;
#[cfg(test)]
use std::io::Eprint;
#[cfg(test)]
use std::process::{Abort, ExitCode, Termination};

#[cfg(test)]
mod choice_prices_tests;
#[cfg(test)]
mod choices;
#[cfg(test)]
mod finder_paths_tests;
#[cfg(test)]
mod finder_prices_tests;
#[cfg(test)]
mod finder_remainders_tests;
#[cfg(test)]
mod finder_tables_tests;
#[cfg(test)]
mod judgements;
#[cfg(test)]
mod plain_prices;
#[cfg(test)]
mod small_load;
#[cfg(test)]
mod texts;
#[cfg(test)]
mod tree_search_tests;

/// Fails a test where a row of a table is wrong, and prints the row.
#[cfg(test)]
fn pass<R: Abort + Eprint, S: Subject>(rt: &R, alloc: Global, subject: &S, rows: &str) {
    let code = check(alloc, subject, rows).report(rt);
    assert!(rt; code == ExitCode::SUCCESS);
}
