//! Tests of holds, tasks and partial placements, of the search and of the judgement of certificates, and the plain
//! programs that they compare with. They stand apart, since a crate with tests is proved twice.
#![tactic(auto)]

pub mod plain_reach;
pub mod plain_rules;

#[cfg(test)]
use case_rows::{Subject, check};
#[cfg(test)]
use std::alloc::Global;
#[cfg(test)]
use std::io::Eprint;
#[cfg(test)]
use std::process::{Abort, ExitCode, Termination};

#[cfg(test)]
mod answers;
#[cfg(test)]
mod balances;
#[cfg(test)]
mod hold_faults;
#[cfg(test)]
mod judgements;
#[cfg(test)]
mod loads;
#[cfg(test)]
mod partials;
#[cfg(test)]
mod small_tasks;

/// Fails a test where a row of a table is wrong, and prints the row.
#[cfg(test)]
fn pass<R: Abort + Eprint, S: Subject>(rt: &R, alloc: Global, subject: &S, rows: &str) {
    let code = check(alloc, subject, rows).report(rt);
    assert!(rt; code == ExitCode::SUCCESS);
}
