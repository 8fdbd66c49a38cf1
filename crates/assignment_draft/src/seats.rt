//! Which candidate is on which position.

ghost use Rattle.std.specs.Prelude.{◌≡◌, ◌<◌, ◌≤◌, suc, All, IfSome, length};
ghost use Rattle.position_set.specs.Sets.{has};
ghost use Rattle.assignment_draft.specs.Drafts.{AreSeated};

use arrayvec::ArrayVec;
use assignment::Candidate;
use position_set::PositionSet;

/// The most positions.
const MOST_POSITIONS: usize = 64;

/// The position of each candidate that has one, and who has each position.
#[derive(Drop)]
pub struct Seats {
    pub stands: ArrayVec<Option<u8>, 60>,
    pub holders: [Option<u8>; 64],
    /// The positions that somebody has.
    pub held: PositionSet,
}

/// The position, if there is one and it is open.
fn still_open(stand: Option<u8>, open: PositionSet) -> Option<u8>
    requires { IfSome stand (λ position. position < 64) }
    ensures { IfSome result (λ position. position < 64) }
{
    match stand {
        Some(position) if open.contains(position) => Some(position),
        _ => None,
    }
}

impl Seats {
    /// Nobody is there.
    fn empty() -> Seats
        ensures { AreSeated 0 result }
    {
        Seats {
            stands: ArrayVec::new(),
            holders: [None; 64],
            held: PositionSet::empty(),
        }
    }

    /// One more candidate, with this position or none.
    fn push(&mut self, stand: Option<u8>)
        requires seated { AreSeated (length self.old.stands.items) self.old }
        requires room { length self.old.stands.items < 60 }
        requires stand { IfSome stand (λ position. position < 64) }
        ensures { AreSeated (suc (length self.old.stands.items)) self.new }
    {
        if let Some(position) = stand {
            self.holders[usize::from(position)] = Some(self.stands.len() as u8);
            self.held = self.held.with(position);
        }
        self.stands.push(stand);
    }

    /// None of so many candidates has a position yet.
    pub fn new(count: usize) -> Seats
        requires { count ≤ 60 }
        ensures { AreSeated count result }
    {
        let mut seats = Seats::empty();
        for _ in 0..count {
            seats.push(None);
        }
        seats
    }

    /// The seats of the candidates after the first one. Each keeps its position where that is still open.
    pub fn after_first(&self, candidates: &[Candidate]) -> Seats
        requires seated { AreSeated (length self.now.stands.items) self.now }
        requires followed { length self.now.stands.items ≡ suc (length candidates.now) }
        ensures { AreSeated (length candidates.now) result }
    {
        let mut seats = Seats::empty();
        for number in 0..candidates.len() {
            seats.push(still_open(self.stands[number + 1], candidates[number].open));
        }
        seats
    }

    /// Gives the position to the candidate from which it was reached, the one that this candidate had to the candidate
    /// from which that was reached, and so on to one that had none.
    pub fn shift(&mut self, from: &[u8; 64], position: u8)
        requires seated { AreSeated (length self.old.stands.items) self.old }
        requires from { All (λ number. number < length self.old.stands.items) from.now }
        requires position { position < 64 }
        ensures { AreSeated (length self.old.stands.items) self.new }
    {
        self.held = self.held.with(position);
        let mut hole = position;
        for _ in 0..MOST_POSITIONS {
            let number = from[usize::from(hole)];
            let left = self.stands[usize::from(number)];
            self.stands[usize::from(number)] = Some(hole);
            self.holders[usize::from(hole)] = Some(number);
            let Some(next) = left else {
                return;
            };
            hole = next;
        }
    }

    /// Gives the position to the candidate from which it was reached, and so on, if there is one. Whether there is.
    pub fn take(&mut self, from: &[u8; 64], position: Option<u8>) -> bool
        requires seated { AreSeated (length self.old.stands.items) self.old }
        requires from { All (λ number. number < length self.old.stands.items) from.now }
        requires position { IfSome position (λ position. position < 64) }
        ensures { AreSeated (length self.old.stands.items) self.new }
    {
        match position {
            Some(position) => {
                self.shift(from, position);
                true
            }
            None => false,
        }
    }
}
