//! Assignment prices, whole: the tight reach of a prefix, prices that show it, certificates of such prices with their
//! text and their judgement, and the search that makes them.
//!
//! Several containers may share a position in the reach of a prefix. In the tight reach each has a position of its own,
//! so a search by it looks at fewer prefixes. Its prices are evidence that anyone tests by additions alone.
#![tactic(auto)]

pub use assignment_prices::{Prices, span, tight_reach_laws};
pub use priced_certificate::{PricedCertificate, PricedCut, PricedCuts, read_priced};
pub use priced_checker::{PricedReject, check_priced, priced_certificate_laws};
pub use priced_placer::{PricedAnswer, place_priced, price_near_laws, write_priced};
pub use tight_reach::{prices_of, tight};
