//! Why files are no fleet.

ghost use Rattle.std.specs.Prelude.{◌≡◌};
ghost use Rattle.desk_fleet.specs.declared.fault.FleetFault.TheVariants.{NoMemory as out_of_memory};

use aircraft_file::FileFault;
use base_words::NoMemory;
use thiserror::Error;

/// Why a file is not one of a fleet.
#[derive(Clone, Copy, Debug, PartialEq, Eq, Error)]
pub enum FileReason {
    /// The file has too many bytes.
    #[error("the file is too long")]
    Long,
    /// The file describes no aircraft.
    #[error("{0}")]
    Fault(FileFault),
    /// The file describes an aircraft with the registration of an earlier one.
    #[error("an earlier file has the same registration")]
    Twice,
}

/// The first file that is not one of a fleet.
#[derive(Clone, Copy, Debug, PartialEq, Eq, Error)]
#[error("aircraft file {number}: {reason}")]
pub struct RefusedFile {
    /// Which file it is, counted from 1 in the order of their names.
    pub number: usize,
    /// Why it is refused.
    pub reason: FileReason,
}

/// Why there is no fleet.
#[derive(Clone, Copy, Debug, PartialEq, Eq, Error)]
pub enum FleetFault {
    /// A file is refused.
    #[error("{0}")]
    Refused(RefusedFile),
    /// A file could not be read. The shelf has counted the failure.
    #[error("a file could not be read")]
    Unread,
    #[error("out of memory")]
    NoMemory,
}

impl From<NoMemory> for FleetFault {
    ghost from_gives = { λ _ fault. fault ≡ out_of_memory };

    fn from(_: NoMemory) -> FleetFault {
        FleetFault::NoMemory
    }
}
