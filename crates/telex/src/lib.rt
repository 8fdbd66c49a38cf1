//! The text of a telex, the form in which the office's documents go out and come in.
//!
//! A message consists of lines of printable ASCII, each at most 200 bytes long and ended by a line feed.
//! The elements of a line are separated by `.` and `/`. [`cut`] checks a text once; after that its
//! [`Message`] is read by two iterators, [`Message::lines`] and [`Line::elements`], whose items are
//! slices of the text. They copy and allocate nothing. Each item has its offset in the message, so that
//! an error can name it. [`Builder`] writes such a text, and every other text of the desk.
#![tactic(auto)]

mod reading;
mod writing;

pub use reading::{
    DOT, Elements, LINE_FEED, LONGEST_LINE, Line, Lines, Message, Part, SLASH, TelexFault, cut,
};
pub use writing::Builder;
