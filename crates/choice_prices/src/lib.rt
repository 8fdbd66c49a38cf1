//! The prices of a certificate of trees, for one task: which lists of prices may stand there, what they are worth over a
//! choice, and the positions that they rule out. A choice is a list of sets of positions, one for each container in branch
//! order.
#![tactic(auto)]

mod cliques;
mod costs;
mod fault;
mod limits;
mod prepared;
mod price_faults;
mod ready_prices;
mod tariff;
mod worth;

pub use cliques::{is_clique, wrong_clique};
pub use costs::Sets;
pub use fault::PriceFault;
pub use price_faults::price_fault;
pub use ready_prices::ReadyPrices;
