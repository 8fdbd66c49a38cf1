//! What a certificate of trees consists of.

ghost use Rattle.std.specs.Prelude.{◌≡◌};
ghost use Rattle.tree_certificate.specs.TreeText.{root_line};

use certificate::Claim;
use position_set::PositionSet;

/// From which end hold indices are counted: up from the low one, or down from the high one.
#[derive(Clone, Copy, Debug, PartialEq, Eq)]
pub enum End {
    Low,
    High,
}

/// The price of a position, a limit or a clique, which has this number among those of its kind: for each place on the
/// position or in the clique, or for each kilogram under the limit.
#[derive(Clone, Copy, Debug, PartialEq, Eq)]
pub struct Price {
    pub of: u32,
    pub price: u64,
}

/// Prices, with the end from which they count hold indices.
#[derive(Debug, Drop)]
pub struct PriceList {
    pub end: End,
    pub positions: Vec<Price>,
    /// By the place among the combined limits, the cumulative ones and the two of a lateral limit: the right over the left,
    /// and the left over the right.
    pub limits: Vec<Price>,
    /// By the place among the cliques of the certificate.
    pub cliques: Vec<Price>,
}

/// One reason of a tree. A price list is named by its place in the certificate.
#[derive(Clone, Copy, Debug, PartialEq, Eq)]
pub enum Operation {
    /// The prices have a value beyond the ticks.
    Leaf(u32),
    /// No tick leaves the remainder that all hold indices leave.
    Residue,
    /// The positions on which the prices would pass the ticks are taken away. What is left follows.
    Narrow(u32),
    /// The container at this rank has one of these positions, or another one. Both follow.
    Split(u8, PositionSet),
}

/// A smaller neighbour of the claimed path: the path's numbers before a rank, and a smaller number there. The operations are
/// a tree that no path as near begins so.
#[derive(Debug, Drop)]
pub struct Sibling {
    pub rank: u8,
    pub position: u8,
    pub operations: Vec<Operation>,
}

/// Evidence for a claim on a task.
#[derive(Debug, Drop)]
pub struct TreeCertificate {
    pub claim: Claim,
    /// Positions that exclude each other.
    pub cliques: Vec<PositionSet>,
    pub prices: Vec<PriceList>,
    /// A tree that no path is nearer than the claimed one; or, where none is claimed, that no path is admissible.
    pub root: Vec<Operation>,
    /// The smaller neighbours of the claimed path, in path order.
    pub siblings: Vec<Sibling>,
}

/// The line before the first tree.
pub fn root_word(claim: &Claim) -> &'static [u8]
    ensures { result.now ≡ root_line claim.now }
{
    match claim {
        Claim::Best(_) => b"nearer",
        Claim::NoneFits => b"any",
    }
}
