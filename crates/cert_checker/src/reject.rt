//! Why a certificate is not good.

use hold_limits::Path;
use thiserror::Error;

/// The first reason for which a certificate is not good. A number is the place of a cut in the certificate's list,
/// counted from 0.
#[derive(Debug, Drop, Error)]
pub enum Reject {
    /// The claimed path is not admissible; or what is claimed is not what was asked for.
    #[error("the claimed path is not admissible, or the claim is of the other kind")]
    NotAPlacement,
    /// A cut that does not come after the one before it, or that begins with it.
    #[error("cut {0} does not come after the cut before it, or begins with it")]
    CutOrder(usize),
    /// A cut that is not viable, or that has a number for every container.
    #[error("cut {0} is not viable, or it is complete")]
    CutNotViable(usize),
    /// A cut with which a better path than the claimed one may begin.
    #[error("cut {0} has a bound that is better than the claim")]
    CutWeak(usize),
    /// An admissible path that begins with no cut and is better than the claimed one: the first in path order.
    #[error("there is a better path than the claimed one")]
    Nearer(Path),
    /// An admissible path where none is claimed: the first in path order.
    #[error("there is an admissible path where none is claimed")]
    Exists(Path),
    /// More viable prefixes are incomplete and begin with no cut than the certificate says.
    #[error("more prefixes are left to look at than the certificate says")]
    MoreExpanded,
}
