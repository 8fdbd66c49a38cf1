//! Texts that consist of lines, read line by line: where a line ends, what its words are, which positions its names
//! mean, how the fields of a line and a run of lines of one kind are read, and why a text is refused.
#![tactic(auto)]

mod cuts;
mod fault;
mod fields;
mod lines;
mod names;
mod parts;
mod sections;
mod words;
mod writers;

pub use cuts::{after_prefix, cut, split_once};
pub use fault::LineFault;
pub use fields::{FieldReader, Last, Then, WordReader, next_fields, read_fields, read_said};
pub use lines::{Lines, expect_last, expect_line};
pub use names::{Names, next_position};
pub use parts::{next_said, read_up_to};
pub use sections::{LineReader, read_section};
pub use words::{IdWord, IndexWord, MassWord, NameWord, NumberWord, PositionWord, SignedWord};
pub use writers::{EntryWriter, NamesOf, write_lines, write_run};
