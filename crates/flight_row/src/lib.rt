//! The row of a flight: the text that a keeper keeps of it, and that another desk reads.
//!
//! ```text
//! FLIGHT 2
//! leg XX210 12 DAIAB FRA ARN
//! edition 7
//! stage released
//! releases 1
//! dry 42000 50.00000 2 4
//! fuel 200 9000 6000
//! limits 73500 66000
//! zone 50 4 2
//! zone 70 6 1
//! container AKE10001XX 1000
//! container AKE10002XX 800
//! loose 51 200 8
//! plan 11 42
//! END
//! ```
//!
//! Rows are written in the second version. One of the first version, which begins with `FLIGHT 1` and has no line of
//! releases, is read as well.
#![tactic(auto)]

mod changes;
mod fault;
mod fleet;
mod kinds;
mod loading;
mod reader;
mod row;
mod row_lines;
mod section_lines;
mod single_lines;
mod words;
mod writer;

pub use fault::RowFault;
pub use fleet::aircraft_of;
pub use reader::read_row;
pub use writer::write_row;
