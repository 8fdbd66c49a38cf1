//! The text of a loading task, read exactly: the result is the task that the bytes spell, or else the one reason
//! why they spell no lawful task.
//!
//! ```text
//! TASK 2
//! position 11 1 -600 AKE 1500
//! position 42 4 600 AKE 1500 PMC 3000
//! bulk 51 5 900
//! exclude 11 42
//! combined 2500 11 42
//! cumulative aft 42 4500
//! side 11 left
//! lateral 900
//! item AKE10001XX 1000
//! loose 51 320
//! base 50.00000
//! window -100.00000 100.00000
//! ideal 50.00000 50.00000
//! END
//! ```
//!
//! A position line has the name, the compartment, the index ticks for each kilogram, and the kinds that the
//! position takes, each with the greatest mass of one in kilograms; a bulk position takes loose loads instead.
//! Then come the pairs of positions of which only one may be used, the greatest masses on some positions together,
//! and those on all positions up to one, or from one on. A text that begins with `TASK 2` goes on with positions
//! that lie on the left or on the right, and with the greatest difference of the masses on both sides; one that
//! begins with `TASK 1` has no such lines. An item line has the identity and the mass of a container,
//! a loose line the mass on a bulk position. The indices are the base, the window for the hold index, and the ideal
//! band for the take-off index.
#![tactic(auto)]

mod fault;
mod laws;
mod limit_readers;
mod line_kinds;
mod line_readers;
mod line_writers;
mod parts;
mod position_reader;
mod reader;
mod single_lines;
mod writer;

pub use fault::TextFault;
pub use laws::reading_laws;
pub use reader::read_task;
pub use writer::write_task;
