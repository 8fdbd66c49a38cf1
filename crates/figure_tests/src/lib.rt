//! Tests of the figures' crates: masses and indices, envelopes, fuel tables, limits of mass, payloads, the parts of a hold, keepers.
//! They stand apart, since a crate with tests is proved twice.
#![tactic(auto)]

#[cfg(test)]
use case_rows::{Subject, check};
#[cfg(test)]
use std::alloc::Global;
#[cfg(test)]
use std::io::Eprint;
#[cfg(test)]
use std::process::{Abort, ExitCode, Termination};

#[cfg(test)]
mod chains;
#[cfg(test)]
mod chords;
#[cfg(test)]
mod envelopes;
#[cfg(test)]
mod fuel_tables;
#[cfg(test)]
mod keepers;
#[cfg(test)]
mod limits;
#[cfg(test)]
mod parts;
#[cfg(test)]
mod payloads;
#[cfg(test)]
mod slopes;
#[cfg(test)]
mod spellings;
#[cfg(test)]
mod sums;

/// Fails a test where a row of a table is wrong, and prints the row.
#[cfg(test)]
fn pass<R: Abort + Eprint, S: Subject>(rt: &R, alloc: Global, subject: &S, rows: &str) {
    let code = check(alloc, subject, rows).report(rt);
    assert!(rt; code == ExitCode::SUCCESS);
}
