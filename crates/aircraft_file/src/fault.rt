ghost use Rattle.std.specs.Prelude.{◌≡◌};
ghost use Rattle.aircraft_file.specs.declared.fault.FileFault.TheVariants.{NoMemory as out_of_memory};

use base_words::NoMemory;
use envelope::EnvFault;
use fuel_table::FuelFault;
use hold_limits::HoldFault;
use thiserror::Error;

/// Why a text is not read as an aircraft. The keys are tested in the order of their numbers, and the first
/// that fails decides; the faults of the hold, of the envelopes, of the fuel table and of the spans come
/// after all keys. The envelopes are numbered 1 zero-fuel, 2 take-off, 3 landing.
#[derive(Clone, Copy, Debug, PartialEq, Eq, Error)]
pub enum FileFault {
    /// The text is not a TOML document.
    #[error("the file is not a TOML document")]
    Toml,
    /// The key with this number is absent.
    #[error("key {0} is missing")]
    Missing(usize),
    /// The key with this number is present, but its value is not in the key's form.
    #[error("key {0} is wrong")]
    Wrong(usize),
    /// The hold has this fault.
    #[error("the hold is not lawful: {0}")]
    Hold(HoldFault),
    /// The envelope with this number has this fault.
    #[error("envelope {0} is not lawful: {1}")]
    Envelope(usize, EnvFault),
    /// The fuel table has this fault.
    #[error("the fuel table is not lawful: {0}")]
    Fuel(FuelFault),
    /// The last mass of the envelope with this number is below the certified mass of its kind.
    #[error("envelope {0} ends below the certified mass")]
    Span(usize),
    /// There was no memory for the aircraft.
    #[error("out of memory")]
    NoMemory,
}

impl From<NoMemory> for FileFault {
    ghost from_gives = { λ _ fault. fault ≡ out_of_memory };

    fn from(_: NoMemory) -> FileFault {
        FileFault::NoMemory
    }
}
