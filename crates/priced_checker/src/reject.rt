//! Why a certificate with prices is not good.

ghost use Rattle.std.specs.Prelude.{◌≡◌};
ghost use Rattle.priced_checker.specs.FirstReason.{priced_reason};

use cert_checker::Reject;
use hold_limits::Path;
use thiserror::Error;

/// The first reason for which a certificate with prices is not good. A number is the place of a cut in the certificate's
/// list, counted from 0.
#[derive(Debug, Drop, Error)]
pub enum PricedReject {
    /// The claimed path is not admissible.
    #[error("the claimed path is not admissible")]
    NotAPlacement,
    /// A cut that does not come after the one before it, or that begins with it.
    #[error("cut {0} does not come after the cut before it, or begins with it")]
    CutOrder(usize),
    /// A cut that is not viable, or that has a number for every container.
    #[error("cut {0} is not viable, or it is complete")]
    CutNotViable(usize),
    /// A cut whose prices do not show that nothing better than the claimed path begins with it.
    #[error("cut {0} has a span that is better than the claim")]
    CutWeak(usize),
    /// An admissible path that begins with no cut and is better than the claimed one: the first in path order.
    #[error("there is a better path than the claimed one")]
    Nearer(Path),
    /// An admissible path where none is claimed: the first in path order.
    #[error("there is an admissible path where none is claimed")]
    Exists(Path),
    /// More viable prefixes are incomplete and begin with no cut than the certificate says.
    #[error("more prefixes are left to look at than the certificate says")]
    MoreExpanded,
    /// A cut whose prices are not prices of what its prefix leaves.
    #[error("cut {0} has prices that are none of what its prefix leaves")]
    Prices(usize),
}

impl From<Reject> for PricedReject {
    ghost from_gives = { λ plain reason. reason ≡ priced_reason plain };

    fn from(plain: Reject) -> PricedReject {
        match plain {
            Reject::NotAPlacement => PricedReject::NotAPlacement,
            Reject::CutOrder(at) => PricedReject::CutOrder(at),
            Reject::CutNotViable(at) => PricedReject::CutNotViable(at),
            Reject::CutWeak(at) => PricedReject::CutWeak(at),
            Reject::Nearer(path) => PricedReject::Nearer(path),
            Reject::Exists(path) => PricedReject::Exists(path),
            Reject::MoreExpanded => PricedReject::MoreExpanded,
        }
    }
}
