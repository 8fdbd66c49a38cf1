//! Tests of flights in transit: the task around what stays, beside a plain program over all paths, and the messages.
//! They stand apart, since a crate with tests is proved twice.
#![tactic(auto)]

#[cfg(test)]
use case_rows::{Subject, check};
#[cfg(test)]
use std::alloc::Global;
#[cfg(test)]
use std::io::Eprint;
#[cfg(test)]
use std::process::{Abort, ExitCode, Termination};

#[cfg(test)]
mod around;
#[cfg(test)]
mod messages;
#[cfg(test)]
mod plain;
#[cfg(test)]
mod texts;

/// Fails a test where a row of a table is wrong, and prints the row.
#[cfg(test)]
fn pass<R: Abort + Eprint, S: Subject>(rt: &R, alloc: Global, subject: &S, rows: &str) {
    let code = check(alloc, subject, rows).report(rt);
    assert!(rt; code == ExitCode::SUCCESS);
}
