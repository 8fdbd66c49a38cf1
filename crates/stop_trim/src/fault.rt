//! Why figures make no load over several sectors.

use stop_tasks::StopFault;
use thiserror::Error;
use trim::TrimFault;

/// Why the figures of a flight on several sectors make no load over them. Sectors are numbered from 1.
#[derive(Clone, Copy, Debug, PartialEq, Eq, Error)]
pub enum StopTrim {
    /// The figures of this sector, the first one, make no task.
    #[error("sector {0}: {1}")]
    Trim(usize, TrimFault),
    /// The tasks of the sectors, the last sectors and the pairs make no load.
    #[error("{0}")]
    Stop(StopFault),
    /// Out of memory.
    #[error("out of memory")]
    NoMemory,
}
