//! The prefixes at which a search turns back since they have no bound.

ghost use Rattle.std.specs.Prelude.{◌≡◌, [], ◌∷◌, ◌++◌, length, nat_lt};
ghost use Rattle.std.specs.List.{filter};
ghost use Rattle.std.specs.Result.{OnOk, OnErr};
ghost use Rattle.certificate.specs.Evidence.{paths_of};

use base_words::NoMemory;
use hold_limits::Path;
use std::alloc::Global;
use std::marker::Model;

/// Viable prefixes that have no bound.
#[derive(Drop)]
pub struct Turned {
    paths: Vec<Path>,
}

impl Model for Turned {
    ghost use Rattle.std.specs.Prelude.{ℕ, List};

    ghost Value = { List (List ℕ) };

    ghost use Rattle.certificate.specs.Evidence.{paths_of};

    ghost view = { λ t. paths_of t.paths.items };
}

impl Turned {
    /// Without prefixes.
    pub fn new(alloc: Global) -> Turned
        ensures { result ≡ [] }
    {
        Turned {
            paths: Vec::new(alloc),
        }
    }

    /// Notes a prefix. After an `Err` they are as before.
    pub fn note(&mut self, prefix: Path) -> Result<(), NoMemory>
        ensures noted { OnOk result (self.new ≡ self.old ++ prefix.items ∷ []) }
        ensures unchanged { OnErr result (self.new ≡ self.old) }
    {
        match self.paths.push(prefix) {
            Ok(()) => Ok(()),
            Err(_) => Err(NoMemory),
        }
    }

    /// The prefixes with fewer than `complete` numbers, in the order in which they were noted.
    pub fn into_incomplete(self, complete: usize) -> Vec<Path>
        ensures { paths_of result.items ≡ filter (λ p. nat_lt (length p) complete) self }
    {
        let mut paths = self.paths;
        paths.retain(|path| path.len() < complete);
        paths
    }
}
