//! The desk of a load control office: it plans which container goes to which position of a hold, and serves the requests
//! of those who dispatch flights.
#![tactic(auto)]

mod asked;
mod desk;
#[cfg(test)]
mod examples;
mod execute;
mod needs;
mod objects;
mod program;
mod ran;
mod serve;
mod stores;
mod system;
mod words;

use load_io::{FileShelf, StdSink, StdSource};
use placer::Direct;
use std::env;
use std::process::ExitCode;
use system::execute_on;

fn main(rt: HostRuntime) -> ExitCode {
    let mut shelf = FileShelf::new(rt);
    let mut input = StdSource::new(rt);
    let mut out = StdSink::new(rt);
    let status = execute_on(
        &rt,
        rt.alloc(),
        env::args(&rt),
        &mut shelf,
        &mut input,
        &mut out,
        &Direct,
    );
    ExitCode::from(status)
}
