//! Runs the turn lock in threads: `turn_bench DESKS CALLS` has so many desks make so many calls each, prints how many
//! entries there are then, and writes the nanoseconds that the calls took to the standard error.
#![tactic(auto)]

#[cfg(test)]
mod long_turns;
#[cfg(test)]
mod room_tests;
#[cfg(test)]
mod tests;
mod threads;

use std::alloc::Allocator;
use std::env::Args;
use std::time::Instant;
use std::{env, io};
use threads::{Sizes, are_in_order, run_threads};

/// The sizes that the arguments name, behind the program's name.
fn sizes_from<A: Allocator>(mut arguments: Args<A>) -> Option<Sizes> {
    arguments.next()?;
    let desks = arguments.next()?.as_str().parse().ok()?;
    let calls = arguments.next()?.as_str().parse().ok()?;
    Sizes::new(desks, calls)
}

fn main(rt: HostRuntime) -> io::Result<()> {
    let Some(sizes) = sizes_from(env::args(&rt)?) else {
        return println!(rt;
            "usage: turn_bench DESKS CALLS, 1 to 8 desks with 1 to 1000000 calls each"
        );
    };
    let start = Instant::now(&rt)?;
    let Some(entries) = run_threads(&rt, rt.alloc(), sizes) else {
        return println!(rt; "out of memory");
    };
    let took = start.elapsed(&rt)?;
    eprintln!(rt; "{}", took.as_nanos())?;
    let order = if are_in_order(entries.as_slice(), sizes) {
        "in order"
    } else {
        "out of order"
    };
    let count = entries.len();
    println!(rt;
        "desks: {}, entries: {count}, the calls of each desk: {order}",
        sizes.desks()
    )
}
