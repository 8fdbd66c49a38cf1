//! The text of a load over several sectors, written and read exactly: the one text of a load is read back as that load.
//! Of any bytes, the result is the load that they spell, or else the one reason why they spell no lawful load.
//!
//! ```text
//! STOPS 1
//! leave AKE10001XX 2
//! leave AKE10002XX 1
//! behind 41 11
//! TASK 1
//! ..
//! END
//! TASK 1
//! ..
//! END
//! ```
//!
//! A line `leave` has the identity of a container of the first task and the number of its last sector. There is one for
//! each container, in the order of the offer. A line `behind` names two positions, of which the second is behind the
//! first, seen from the door. Then come the whole texts of two tasks or three, one for each sector.
#![tactic(auto)]

mod ends;
mod fault;
mod laws;
mod line_readers;
mod line_writers;
mod load;
mod parts;
mod reader;
mod writer;

pub use fault::StopTextFault;
pub use laws::stop_text_laws;
pub use reader::read_stops;
pub use writer::write_stops;
