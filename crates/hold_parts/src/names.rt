//! Positions by their names.

ghost use Rattle.std.specs.Prelude.{◌≡◌, List, ℕ, IfOk};
ghost use Rattle.std.specs.BTreeMap.{get_by};
ghost use Rattle.std.specs.Cmp.Lexicographic.{slice_cmp};
ghost use Rattle.std.specs.Ordering.{nat_cmp};
ghost use Rattle.hold_parts.specs.Names.{number_named};

use crate::parts::Position;
use base_words::NoMemory;
use std::alloc::Global;
use std::collections::BTreeMap;

/// The numbers of positions by their names. A name that several positions have means the first of them.
#[derive(Drop)]
pub struct PositionNames<'a> {
    pub positions: &'a [Position],
    numbers: BTreeMap<&'a [u8], usize>,
    ghost named: { (name : List ℕ)
        → get_by (λ k. slice_cmp nat_cmp name k.now) numbers ≡ number_named positions.now name },
}

impl<'a> PositionNames<'a> {
    /// The names of the positions.
    #[tactic(auto, unfolding(crate::specs::Names::number_named))]
    pub fn new(alloc: Global, positions: &'a [Position]) -> Result<PositionNames<'a>, NoMemory>
        ensures { IfOk result (λ names. names.positions.now ≡ positions.now) }
    {
        let mut numbers = BTreeMap::new(alloc);
        for (number, position) in positions.iter().enumerate() {
            let name = position.name.bytes();
            if !numbers.contains_key(name) {
                numbers.insert(name, number)?;
            }
        }
        Ok(PositionNames { positions, numbers })
    }

    /// The number of the position with this name.
    pub fn number_of(&self, name: &[u8]) -> Option<usize>
        ensures { result ≡ number_named self.now.positions.now name.now }
    {
        self.numbers.get(name).copied()
    }
}
