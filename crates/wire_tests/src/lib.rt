//! Tests of the crates at the outside: sinks, sources, links and shelves in memory, and requests over a link.
//! They stand apart, since a crate with tests is proved twice.
#![tactic(auto)]

#[cfg(test)]
use case_rows::{Subject, check};
#[cfg(test)]
use std::alloc::Global;
#[cfg(test)]
use std::io::Eprint;
#[cfg(test)]
use std::process::{Abort, ExitCode, Termination};

#[cfg(test)]
mod links;
#[cfg(test)]
mod requests;
#[cfg(test)]
mod shelves;
#[cfg(test)]
mod sinks;
#[cfg(test)]
mod sources;

/// Fails a test where a row of a table is wrong, and prints the row.
#[cfg(test)]
fn pass<R: Abort + Eprint, S: Subject>(rt: &R, alloc: Global, subject: &S, rows: &str) {
    let code = check(alloc, subject, rows).report(rt);
    assert!(rt; code == ExitCode::SUCCESS);
}
