//! Why a desk is not opened.

ghost use Rattle.std.specs.Prelude.{◌≡◌};
ghost use Rattle.desk_fleet.specs.declared.fault.FleetFault.{FleetFault};
ghost use Rattle.editions.specs.declared.starting.StartFault.{StartFault};
ghost use Rattle.desk_run.specs.Faults.{fault_of_fleet, fault_of_start};
ghost use Rattle.desk_run.specs.declared.fault.DeskFault.TheVariants.{NoMemory as out_of_memory};

use base_words::NoMemory;
use desk_fleet::{FleetFault, RefusedFile};
use editions::StartFault;
use keeper::Bytes;

/// Why a desk is not opened.
#[derive(Debug, Drop)]
pub enum DeskFault {
    /// A file of the fleet is refused.
    Fleet(RefusedFile),
    /// A file could not be read. The shelf has counted the failure.
    Unread,
    /// The keeper failed while its rows were loaded, and has counted it.
    Keeper,
    /// The row under this key is none of a flight of the fleet.
    BadTable(Bytes),
    /// There are over 2,000 rows.
    TooMany,
    /// Out of memory.
    NoMemory,
}

impl From<FleetFault> for DeskFault {
    ghost from_gives = { λ fault given. given ≡ fault_of_fleet fault };

    fn from(fault: FleetFault) -> DeskFault {
        match fault {
            FleetFault::Refused(file) => DeskFault::Fleet(file),
            FleetFault::Unread => DeskFault::Unread,
            FleetFault::NoMemory => DeskFault::NoMemory,
        }
    }
}

impl From<StartFault> for DeskFault {
    ghost from_gives = { λ fault given. given ≡ fault_of_start fault };

    fn from(fault: StartFault) -> DeskFault {
        match fault {
            StartFault::Keeper => DeskFault::Keeper,
            StartFault::BadTable(key) => DeskFault::BadTable(key),
            StartFault::TooMany => DeskFault::TooMany,
            StartFault::NoMemory => DeskFault::NoMemory,
        }
    }
}

impl From<NoMemory> for DeskFault {
    ghost from_gives = { λ _ fault. fault ≡ out_of_memory };

    fn from(_: NoMemory) -> DeskFault {
        DeskFault::NoMemory
    }
}
