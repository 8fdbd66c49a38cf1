// A door in memory.
ghost use Rattle.std.specs.Prelude.{◌≡◌, Some, IfOk};
ghost use Rattle.load_io.specs.Calls.{no_calls};
ghost use Rattle.load_io.specs.Door.{queue_of};

use crate::calls::CallLog;
use crate::doors::queue::LinkQueue;
use crate::{Door, Failed, MemoryLink};
use base_words::NoMemory;
use std::alloc::Global;
use std::marker::Model;

/// A door in memory, which exposes its links. Calls of `next` fail at the numbers of a list.
#[derive(Drop)]
pub struct MemoryDoor {
    links: LinkQueue<MemoryLink>,
    calls: CallLog,
}

impl Model for MemoryDoor {
    ghost use Rattle.load_io.specs.Door.{Doorway};
    ghost use Rattle.load_io.specs.MemoryLink.{Directions};

    ghost Value = { Doorway Directions };

    ghost view = { λ door. record { links = door.links; calls = door.calls } };
}

impl MemoryDoor {
    /// A door at which these links come in. `fail` lists the numbers of the calls of `next` that are to fail, counted
    /// from 1.
    pub fn new(
        alloc: Global,
        links: Vec<MemoryLink>,
        fail: Vec<u64>,
    ) -> Result<MemoryDoor, NoMemory>
        ensures { IfOk result (λ door. door ≡ record { links = queue_of links.items; calls = no_calls fail.items }) }
    {
        Ok(MemoryDoor {
            links: LinkQueue::new(alloc, links)?,
            calls: CallLog::new(fail),
        })
    }

    /// The links that were handed back, in order.
    pub fn back(&self) -> &[MemoryLink]
        ensures { result.now ≡ self.now.links.back }
    {
        self.links.back()
    }
}

impl Door for MemoryDoor {
    type Link = MemoryLink;

    ghost coming = { λ door. Some door.links.coming };

    ghost handed = { λ door. Some door.links.back };

    ghost lent = { λ door. door.links.lent };

    ghost faults = { λ door. door.calls.faults };

    fn next(&mut self) -> Result<Option<MemoryLink>, Failed> {
        if self.calls.next_call_fails() {
            self.calls.count_fault();
            return Err(Failed);
        }
        Ok(self.links.next())
    }

    fn done(&mut self, link: MemoryLink) {
        self.links.hand_back(link);
    }
}
