//! Why a certificate of trees is not good.

use thiserror::Error;

/// The first reason for which a certificate of trees is not good. Places count from 0; the first tree is the one over all
/// positions, and the tree of the first sibling comes next.
#[derive(Clone, Copy, Debug, PartialEq, Eq, Error)]
pub enum TreeRejection {
    /// The claimed path is not admissible; or what is claimed is not what was asked for.
    #[error("the claimed path is not admissible, or the claim is of the other kind")]
    NotAPlacement,
    /// Two positions of the clique at this place do not exclude each other.
    #[error("clique {0} has two positions that do not exclude each other")]
    NotAClique(usize),
    /// The price list at this place has a price beyond its bound, or of something that there is not, or too many prices.
    #[error("price list {0} has a price beyond its bound, or too many prices")]
    WrongPrices(usize),
    /// In the tree of this number the operation at this place does not hold, is missing, or is too many.
    #[error("operation {1} of tree {0} does not hold, is missing, or is too many")]
    WrongOperation(usize, usize),
    /// The sibling at this place is missing, out of order or not needed.
    #[error("sibling {0} is missing, out of order or not needed")]
    WrongSibling(usize),
    /// There was no memory for the choices that are left to refute. It says nothing about the certificate.
    #[error("out of memory")]
    NoMemory,
}
