//! Remainders of hold indices. All hold indices of a choice leave the same remainder by a number that divides what they differ
//! by, so a position of one container is out of the question where no tick leaves the remainder that comes with it. This is
//! what tells single ticks apart, where sums of prices do not.
#![tactic(auto)]

mod allowed;
mod classes;
mod divisors;
mod spots;

pub use allowed::allows;
pub use classes::{Class, forbidden_class};
pub use divisors::{divisor_from, divisor_without};
pub use spots::{Spot, Spots, index_of_firsts, spots_of};
