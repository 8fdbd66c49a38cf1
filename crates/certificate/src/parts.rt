//! What a certificate consists of.

ghost use Rattle.std.specs.Prelude.{◌≡◌};
ghost use Rattle.certificate.specs.Evidence.{paths_of};

use hold_limits::Path;
use std::marker::Model;

/// What a certificate says of its task.
#[derive(Debug, Drop)]
pub enum Claim {
    /// The path is the best one.
    Best(Path),
    /// No path is admissible.
    NoneFits,
}

/// Prefixes at which a search turned back.
#[derive(Debug, Drop)]
pub struct Cuts {
    list: Vec<Path>,
}

impl Model for Cuts {
    ghost use Rattle.std.specs.Prelude.{ℕ, List};

    ghost Value = { List (List ℕ) };

    ghost use Rattle.certificate.specs.Evidence.{paths_of};

    ghost view = { λ c. paths_of c.list.items };
}

impl Cuts {
    /// The prefixes, in the order in which they were given.
    pub fn as_slice(&self) -> &[Path]
        ensures { paths_of result.now ≡ self.now }
    {
        self.list.as_slice()
    }
}

impl From<Vec<Path>> for Cuts {
    ghost from_gives = { λ list cuts. cuts ≡ paths_of list.items };

    fn from(list: Vec<Path>) -> Cuts {
        Cuts { list }
    }
}

impl From<Cuts> for Vec<Path> {
    ghost from_gives = { λ cuts list. paths_of list.items ≡ cuts };

    fn from(cuts: Cuts) -> Vec<Path> {
        cuts.list
    }
}

/// Evidence for a claim on a task: the search for a better path may turn back at each of the cuts, and looks at no more
/// than `expanded` prefixes beside them.
#[derive(Debug, Drop)]
pub struct Certificate {
    pub claim: Claim,
    pub cuts: Cuts,
    /// How many prefixes that are neither complete nor begin with a cut are viable, at most.
    pub expanded: u32,
}
