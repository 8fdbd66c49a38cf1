ghost use Rattle.std.specs.Prelude.{◌≡◌};
ghost use Rattle.aircraft_keys.specs.declared.fault.KeysFault.TheVariants.{NoMemory as out_of_memory};

use base_words::NoMemory;
use thiserror::Error;

/// Why the keys of a text are not told.
#[derive(Clone, Copy, Debug, PartialEq, Eq, Error)]
pub enum KeysFault {
    /// The text is not a TOML document.
    #[error("the file is not a TOML document")]
    Toml,
    /// There was no memory for the document or for the names of its keys.
    #[error("out of memory")]
    NoMemory,
}

impl From<NoMemory> for KeysFault {
    ghost from_gives = { λ _ fault. fault ≡ out_of_memory };

    fn from(_: NoMemory) -> KeysFault {
        KeysFault::NoMemory
    }
}
