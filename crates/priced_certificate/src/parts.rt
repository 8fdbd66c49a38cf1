//! What a certificate with prices consists of.

ghost use Rattle.std.specs.Prelude.{◌≡◌};

use assignment_prices::Prices;
use certificate::{Claim, Cut};
use hold_limits::Path;
use std::marker::Model;

/// A prefix at which a search turned back, with prices that show that it may.
#[derive(Debug, Drop)]
pub struct PricedCut {
    pub prefix: Path,
    pub prices: Prices,
}

impl Cut for PricedCut {
    ghost prefix_of = { λ cut. cut.prefix.items };

    fn prefix(&self) -> &Path {
        &self.prefix
    }
}

/// Prefixes at which a search turned back, with their prices.
#[derive(Debug, Drop)]
pub struct PricedCuts {
    list: Vec<PricedCut>,
}

impl Model for PricedCuts {
    ghost use Rattle.std.specs.Prelude.{List};
    ghost use Rattle.priced_certificate.specs.declared.parts.PricedCut.{PricedCut};

    ghost Value = { List PricedCut };

    ghost view = { λ c. c.list.items };
}

impl PricedCuts {
    /// The cuts, in the order in which they were given.
    pub fn as_slice(&self) -> &[PricedCut]
        ensures { result.now ≡ self.now }
    {
        self.list.as_slice()
    }
}

impl From<Vec<PricedCut>> for PricedCuts {
    ghost from_gives = { λ list cuts. cuts ≡ list.items };

    fn from(list: Vec<PricedCut>) -> PricedCuts {
        PricedCuts { list }
    }
}

impl From<PricedCuts> for Vec<PricedCut> {
    ghost from_gives = { λ cuts list. list.items ≡ cuts };

    fn from(cuts: PricedCuts) -> Vec<PricedCut> {
        cuts.list
    }
}

/// Evidence for a claim on a task: the search for a better path may turn back at each of the cuts, as its prices show,
/// and looks at no more than `expanded` prefixes beside them.
#[derive(Debug, Drop)]
pub struct PricedCertificate {
    pub claim: Claim,
    pub cuts: PricedCuts,
    /// How many prefixes that are neither complete nor begin with a cut are viable, at most.
    pub expanded: u32,
}
