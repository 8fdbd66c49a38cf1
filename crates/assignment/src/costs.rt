//! What candidates cost on positions.

ghost use Rattle.std.specs.Prelude.{◌≡◌, ◌<◌, length};
ghost use Rattle.assignment.specs.Tables.{candidate_at, influence_at};

use crate::candidate::Candidate;

/// Candidates in their order, and the ticks that a kilogram adds on each position.
#[derive(Clone, Copy)]
pub struct CostTable<'a> {
    pub candidates: &'a [Candidate],
    pub influences: &'a [i64],
}

impl CostTable<'_> {
    /// The candidate of this number.
    pub fn candidate(&self, number: u8) -> Candidate
        requires { number < length self.now.candidates.now }
        ensures { result ≡ candidate_at self.now number }
    {
        self.candidates[usize::from(number)]
    }

    /// What a kilogram adds on the position, in ticks.
    pub fn influence(&self, position: u8) -> i64
        requires { position < length self.now.influences.now }
        ensures { result ≡ influence_at self.now position }
    {
        self.influences[usize::from(position)]
    }
}
