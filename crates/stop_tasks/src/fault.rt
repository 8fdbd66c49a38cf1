//! Why parts are no load over several sectors.

use thiserror::Error;

/// What is wrong with a load over several sectors. Sectors are numbered from 1, pairs of positions from 0.
#[derive(Clone, Copy, Debug, PartialEq, Eq, Error)]
pub enum StopFault {
    /// So many sectors, which are not two or three.
    #[error("{0} sectors, not 2 or 3")]
    Sectors(usize),
    /// This sector, the first one, has another hold than the first sector.
    #[error("sector {0} has another hold")]
    Holds(usize),
    /// Not one number for each container, from 1 to the number of sectors.
    #[error("not one last sector for each container")]
    Leaves,
    /// This sector, the first one, has other containers than those that are still aboard.
    #[error("sector {0} has other containers than those aboard")]
    Aboard(usize),
    /// This pair, the first one, has equal or unknown positions.
    #[error("pair {0} has equal or unknown positions")]
    Behind(usize),
}
