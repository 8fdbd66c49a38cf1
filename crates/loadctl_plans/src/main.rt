//! `loadctl` without the desk: the commands about a task, a load or a flight in transit alone. It starts sooner, so
//! `./loadctl` runs it where nothing is proved yet.
#![tactic(auto)]

use load_io::{FileShelf, StdSink};
use placer::Direct;
use plan_commands::{Stop, arguments_from, exit_status, print};
use std::env;
use std::process::ExitCode;

fn main(rt: HostRuntime) -> ExitCode {
    let alloc = rt.alloc();
    let mut shelf = FileShelf::new(rt);
    let mut out = StdSink::new(rt);
    let status = match arguments_from(alloc, env::args(&rt)) {
        Ok(arguments) => print(alloc, arguments.as_slice(), &mut shelf, &mut out, &Direct),
        Err(_) => exit_status(Err(Stop::NoMemory)),
    };
    ExitCode::from(status)
}
