// A door that never fails.
ghost use Rattle.std.specs.Prelude.{◌≡◌, Some, IfOk};
ghost use Rattle.load_io.specs.Door.{queue_of};

use crate::doors::queue::LinkQueue;
use crate::{Door, Failed, SureLink};
use base_words::NoMemory;
use std::alloc::Global;
use std::marker::Model;

/// A door that never fails, which exposes its links.
#[derive(Drop)]
pub struct SureDoor {
    links: LinkQueue<SureLink>,
}

impl Model for SureDoor {
    ghost use Rattle.std.specs.Prelude.{ℕ, List};
    ghost use Rattle.load_io.specs.Door.{Queue};

    ghost Value = { Queue (List ℕ) };

    ghost view = { λ door. door.links };
}

impl SureDoor {
    /// A door at which these links come in.
    pub fn new(alloc: Global, links: Vec<SureLink>) -> Result<SureDoor, NoMemory>
        ensures { IfOk result (λ door. door ≡ queue_of links.items) }
    {
        Ok(SureDoor {
            links: LinkQueue::new(alloc, links)?,
        })
    }
}

impl Door for SureDoor {
    type Link = SureLink;

    ghost coming = { λ door. Some door.coming };

    ghost handed = { λ door. Some door.back };

    ghost lent = { λ door. door.lent };

    ghost faults = { λ _. 0 };

    fn next(&mut self) -> Result<Option<SureLink>, Failed> {
        Ok(self.links.next())
    }

    fn done(&mut self, link: SureLink) {
        self.links.hand_back(link);
    }
}
