//! Late changes of a flight that is released.

ghost use Rattle.std.specs.Prelude.{◌≡◌, ◌++◌, ◌∷◌, [], ◌≤◌, ◌<◌, ◌↔◌, length, IsTrue, OnOk, OnErr};

use base_words::NoMemory;
use hold_limits::Name;
use std::alloc::{AllocError, Global};
use std::marker::Model;

/// The most late changes of a flight.
const MOST_CHANGES: usize = 10;

/// A late change: by how many passengers a zone, or by what mass and how many pieces a bulk position differs from the
/// figures before.
#[derive(Clone, Copy, Debug)]
pub enum Lmc {
    /// The zone counts from 1.
    Cabin {
        zone: u8,
        adults: i16,
        children: i16,
        infants: i16,
    },
    /// The mass is in kilograms.
    Loose {
        position: Name,
        mass: i32,
        pieces: i16,
    },
}

/// The late changes of a flight in their order, at most 10.
#[derive(Debug, Drop)]
pub struct Lmcs {
    list: Vec<Lmc>,
}

impl Model for Lmcs {
    ghost use Rattle.std.specs.Prelude.{List, ◌≤◌, length};
    ghost use Rattle.flight_state.specs.declared.change.Lmc.{Lmc};

    ghost Value = { List Lmc };

    ghost view = { λ l. l.list.items };

    ghost invariant = { λ l. length l.list.items ≤ 10 };
}

impl Lmcs {
    /// No late changes.
    pub fn new(alloc: Global) -> Lmcs
        ensures { result ≡ [] }
    {
        Lmcs {
            list: Vec::new(alloc),
        }
    }

    /// Whether there are as many as there may be.
    pub fn is_full(&self) -> bool
        ensures full { IsTrue result ↔ (10 ≤ length self.now) }
        ensures few { length self.now ≤ 10 }
    {
        self.list.len() >= MOST_CHANGES
    }

    /// The late changes, in their order.
    pub fn as_slice(&self) -> &[Lmc]
        ensures value { result.now ≡ self.now }
        ensures few { length self.now ≤ 10 }
    {
        self.list.as_slice()
    }

    /// Adds a late change at the end.
    pub fn push(&mut self, change: Lmc) -> Result<(), NoMemory>
        requires { length self.old < 10 }
        ensures added { OnOk result (self.new ≡ self.old ++ change ∷ []) }
        ensures kept { OnErr result (self.new ≡ self.old) }
    {
        self.list.push(change)?;
        Ok(())
    }
}

impl Clone for Lmcs {
    ghost is_clone = { λ lmcs copy. copy ≡ lmcs };

    fn clone(&self) -> Result<Lmcs, AllocError> {
        let alloc = *self.list.allocator();
        Ok(Lmcs {
            list: self.list.as_slice().to_vec(alloc)?,
        })
    }
}
