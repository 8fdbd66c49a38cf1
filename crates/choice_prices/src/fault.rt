use thiserror::Error;

/// What is wrong with a list of prices: the first of these kinds that there is, at its first place in the list. A price is
/// wrong where it is more than 10,000,000,000,000, or is of something that the task or the certificate does not have.
#[derive(Clone, Copy, Debug, PartialEq, Eq, Error)]
pub enum PriceFault {
    /// There are more than 64 prices of positions, 194 of limits or 256 of cliques.
    #[error("there are too many prices")]
    TooMany,
    /// The price of a position is wrong.
    #[error("price {0} of a position is wrong")]
    Position(usize),
    /// The price of a limit is wrong.
    #[error("price {0} of a limit is wrong")]
    Limit(usize),
    /// The price of a clique is wrong.
    #[error("price {0} of a clique is wrong")]
    Clique(usize),
}
