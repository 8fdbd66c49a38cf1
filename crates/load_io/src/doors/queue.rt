// Links in memory that wait to come in, and those that were handed back.
ghost use Rattle.std.specs.Prelude.{◌≡◌, ◌+◌, ◌<◌, [], ◌∷◌, ◌++◌, IfOk, IfSome, IfNone};
ghost use Rattle.load_io.specs.Door.{queue_of};

use base_words::NoMemory;
use std::alloc::Global;
use std::marker::Model;

/// Links in memory: those to come, the last one first, and those that were handed back, in room taken when it is made.
#[derive(Drop)]
pub struct LinkQueue<L: Drop> {
    coming: Vec<L>,
    back: Vec<L>,
    lent: usize,
}

impl<L: Drop> Model for LinkQueue<L> {
    ghost use Rattle.std.specs.Prelude.{◌+◌, ◌≤◌, reverse, vec_len, vec_capacity};
    ghost use Rattle.load_io.specs.Door.{Queue};

    ghost Value = { Queue L };

    ghost view = { λ q. record { coming = reverse q.coming.items; back = q.back.items; lent = q.lent } };

    ghost invariant = { λ q. vec_len q.back + q.lent + vec_len q.coming ≤ vec_capacity q.back };
}

impl<L: Drop> LinkQueue<L> {
    /// These links are to come, in this order.
    pub fn new(alloc: Global, links: Vec<L>) -> Result<LinkQueue<L>, NoMemory>
        ensures { IfOk result (λ queue. queue ≡ queue_of links.items) }
    {
        let back = Vec::with_capacity(alloc, links.len())?;
        let mut coming = links;
        coming.as_mut_slice().reverse();
        Ok(LinkQueue {
            coming,
            back,
            lent: 0,
        })
    }

    /// The next link.
    pub fn next(&mut self) -> Option<L>
        ensures first { IfSome result (λ link. self.old.coming ≡ link ∷ self.new.coming) }
        ensures counts { IfSome result (λ _. self.new.lent ≡ self.old.lent + 1) }
        ensures none { IfNone result ((self.old.coming ≡ []) × (self.new ≡ self.old)) }
        ensures back_kept { self.new.back ≡ self.old.back }
    {
        let link = self.coming.pop()?;
        self.lent += 1;
        Some(link)
    }

    /// Takes a link back.
    pub fn hand_back(&mut self, link: L)
        requires lent { 0 < self.old.lent }
        ensures last { self.new.back ≡ self.old.back ++ link ∷ [] }
        ensures counts { self.new.lent + 1 ≡ self.old.lent }
        ensures coming_kept { self.new.coming ≡ self.old.coming }
    {
        self.back.push_reserved(link);
        self.lent -= 1;
    }

    /// The links that were handed back, in order.
    pub fn back(&self) -> &[L]
        ensures { result.now ≡ self.now.back }
    {
        self.back.as_slice()
    }
}
