//! Certificates with prices: evidence that a path is the best placement of a task, or that no path is admissible, by
//! prefixes at which a search turned back, each with prices that show that it may. Their values, and their text.
//!
//! ```text
//! CERTIFICATE 2
//! best 12 41
//! cut 11
//! lower 4200000 -150 ; 0 0 -90 0
//! upper 5100000 380 ; 0 12 0 0
//! expanded 3
//! END
//! ```
//!
//! The second line names the positions of the path that is claimed to be the best, or it is `none` for the claim that
//! nothing fits. Each cut has three lines: its positions, where `cut` alone is the empty prefix; then the prices for the
//! lower end of the hold indices, and those for the upper end. A line of prices has those of the containers that the
//! prefix leaves, a semicolon, and those of the positions. Any lines before `CERTIFICATE 2` are skipped, so that a
//! whole answer to a task is the text of a certificate.
#![tactic(auto)]

mod cut_readers;
mod laws;
mod line_writers;
mod parts;
mod price_readers;
mod price_words;
mod reader;
mod writer;

pub use laws::priced_reading_laws;
pub use parts::{PricedCertificate, PricedCut, PricedCuts};
pub use reader::read_priced;
pub use writer::push_priced_certificate;
