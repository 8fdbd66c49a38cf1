//! Has an office answer requests, for measurements. `office_bench KIND FLIGHTS ENTRIES ROUNDS AIRCRAFT` starts an office on so many
//! flights that were kept, shows one of them so many times, and then makes so many rounds of the kind. It prints how many of
//! them were answered as they should be.
#![tactic(auto)]

mod desk;
mod rounds;

use base_words::NoMemory;
use desk::Desk;
use load_io::{FileShelf, Shelf};
use rounds::{Kind, good_rounds};
use std::alloc::Global;
use std::env::Args;
use std::{env, io};

/// What the arguments name, behind the program's name.
#[derive(Drop)]
struct Sizes {
    kind: Kind,
    flights: u32,
    entries: u32,
    rounds: u32,
}

/// The number that the next argument is.
fn number(arguments: &mut Args) -> Option<u32> {
    arguments.next()?.as_str().parse().ok()
}

fn sizes_from(arguments: &mut Args) -> Option<Sizes> {
    arguments.next()?;
    Some(Sizes {
        kind: Kind::read(arguments.next()?.as_str())?,
        flights: number(arguments)?,
        entries: number(arguments)?,
        rounds: number(arguments)?,
    })
}

/// The rounds that were answered as they should be.
fn measured(alloc: Global, sizes: &Sizes, file: &[u8]) -> Result<u32, NoMemory> {
    let mut desk = Desk::started(alloc, file, sizes.flights)?;
    desk.show_often(alloc, sizes.entries)?;
    good_rounds(alloc, &mut desk, sizes.kind, sizes.rounds)
}

fn main(rt: HostRuntime) -> io::Result<()> {
    let mut arguments = env::args(&rt)?;
    let (Some(sizes), Some(name)) = (sizes_from(&mut arguments), arguments.next()) else {
        return println!(rt;
            "usage: office_bench KIND FLIGHTS ENTRIES ROUNDS AIRCRAFT, where KIND is show, set, take, plan, install, release, late, reopen or depart"
        );
    };
    let mut shelf = FileShelf::new(rt);
    let Ok(file) = shelf.read(rt.alloc(), name.as_str(), 1_048_576) else {
        return println!(rt; "the aircraft cannot be read");
    };
    match measured(rt.alloc(), &sizes, &file) {
        Ok(good) => println!(rt; "{good} of {} rounds", sizes.rounds),
        Err(_) => println!(rt; "no office"),
    }
}
