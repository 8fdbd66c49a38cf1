//! The outside of the program behind traits: a [`Sink`] takes bytes, a [`Source`] provides them, a [`Link`] does
//! both, as a connection does, a [`Door`] brings links, and a [`Shelf`] provides files by name.
//!
//! To contracts, an object of such a trait exposes how many of its calls have failed and, unless it keeps
//! them hidden, its contents. A call returns a failure only if that number rose, and code over these traits
//! cannot raise it: so it cannot report a failure that did not happen.
//!
//! Each trait has an implementation in memory, whose calls fail at the numbers of a list, and one that never
//! fails. The real things hide their contents: that a real file, the standard input or the standard output
//! behaves as its trait says is tested and not proved. [`Joined`] makes a link of a source and a sink.
#![tactic(auto)]

mod calls;
mod doors;
mod links;
mod shelves;
mod sinks;
mod sources;

pub use doors::Door;
pub use doors::memory::MemoryDoor;
pub use doors::port::TcpDoor;
pub use doors::sure::SureDoor;
pub use links::joined::Joined;
pub use links::memory::MemoryLink;
pub use links::stream::TcpLink;
pub use links::sure::SureLink;
pub use links::{Link, send_all};
pub use shelves::memory::MemoryShelf;
pub use shelves::sure::SureShelf;
pub use shelves::system::FileShelf;
pub use shelves::{Shelf, ShelfFault};
pub use sinks::memory::MemorySink;
pub use sinks::standard::StdSink;
pub use sinks::sure::SureSink;
pub use sinks::{Sink, write_all};
pub use sources::Source;
pub use sources::memory::MemorySource;
pub use sources::standard::StdSource;
pub use sources::sure::SureSource;
use thiserror::Error;

/// A failed call of an object outside the program, which changed nothing.
#[derive(Clone, Copy, Debug, PartialEq, Eq, Error)]
#[error("a call outside the program failed")]
pub struct Failed;
