//! Tests of a flight's crates: the aircraft's file, trim, the flight's state and row, late changes.
//! They stand apart, since a crate with tests is proved twice.
#![tactic(auto)]

#[cfg(test)]
use case_rows::{Subject, check};
#[cfg(test)]
use std::alloc::Global;
#[cfg(test)]
use std::io::Eprint;
#[cfg(test)]
use std::process::{Abort, ExitCode, Termination};

#[cfg(test)]
mod aircraft;
#[cfg(test)]
mod balance;
#[cfg(test)]
mod fleets;
#[cfg(test)]
mod late_changes;
#[cfg(test)]
mod rows;
#[cfg(test)]
mod states;

/// Fails a test where a row of a table is wrong, and prints the row.
#[cfg(test)]
fn pass<R: Abort + Eprint, S: Subject>(rt: &R, alloc: Global, subject: &S, rows: &str) {
    let code = check(alloc, subject, rows).report(rt);
    assert!(rt; code == ExitCode::SUCCESS);
}
