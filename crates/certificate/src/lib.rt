//! Certificates: evidence that a path is the best placement of a task, or that no path is admissible. What makes a
//! certificate good, and its text.
//!
//! ```text
//! CERTIFICATE 1
//! best 12 41
//! cut 11
//! cut 42
//! expanded 3
//! END
//! ```
//!
//! The second line names the positions of the path that is claimed to be the best, or it is `none` for the claim that
//! nothing fits. Each cut has a line with its positions, and is `cut` alone where it is the empty prefix. Any lines
//! before `CERTIFICATE 1` are skipped, so that a whole answer to a task is the text of a certificate.
#![tactic(auto)]

mod cut;
mod fault;
mod laws;
mod line_readers;
mod line_writers;
mod name_table;
mod parts;
mod reader;
mod wide_numbers;
mod writer;

pub use cut::Cut;
pub use fault::CertFault;
pub use laws::reading_laws;
pub use line_readers::{next_claim, read_path};
pub use line_writers::{push_claim, push_expanded, push_path};
pub use name_table::NameTable;
pub use parts::{Certificate, Claim, Cuts};
pub use reader::{after_start, read_certificate};
pub use wide_numbers::read_wide_number;
pub use writer::{push_certificate, write_certificate};
