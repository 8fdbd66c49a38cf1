//! The search for the best path: best first through viable prefixes.
//!
//! A queue has viable prefixes, each with ticks that are no more than its bound. The least is taken out and looked at. If
//! its bound is greater, it is put back with more ticks; if it has none, it is noted; else the viable prefixes that are it
//! with one number more are put in. The best path has no smaller distance than a prefix of it has as its bound, and a list
//! precedes its extensions. So what is taken out with its own bound is promising, and the first complete prefix that is so
//! taken out is the best path. Where the search turned back is what is left in the queue or was noted, and leaves
//! containers.

ghost use Rattle.std.specs.Prelude.{◌≡◌, ◌++◌, ◌∷◌, [], All, IfNone, IfOk, IfSome, IsPermutation, IsSorted, MatchOption, length, nat_lt};
ghost use Rattle.std.specs.List.{filter};
ghost use Rattle.std.specs.Ordering.{nat_cmp};
ghost use Rattle.std.specs.Cmp.Lexicographic.{slice_cmp};
ghost use Rattle.std.specs.Result.{OnOk};
ghost use Rattle.certificate.specs.Evidence.{paths_of};
ghost use Rattle.certificate.specs.Good.{AreAtMost};
ghost use Rattle.path_search.specs.Keys.{key_of, prefixes};
ghost use Rattle.path_search.specs.Promising.{AreMoreThan, IsFoundFor, IsPromising};
ghost use Rattle.path_search.specs.Search.{IsFirst, IsWaiting, StaysSearched};
ghost use Rattle.path_search.specs.Worlds.{IsSearchable};

use crate::explorer::{Explorer, Look};
use crate::found::Found;
use crate::queue::{Queue, Waiting};
use crate::turned::Turned;
use base_words::NoMemory;
use certificate::Claim;
use hold_limits::Path;
use std::alloc::Global;

/// A queue in which the empty prefix waits with so many ticks, or without prefixes where there are none.
fn queue_from(alloc: Global, first: Option<u64>) -> Result<Queue, NoMemory>
    ensures { IfOk result (λ queue. MatchOption first (queue ≡ []) (λ ticks. queue ≡ (ticks, []) ∷ [])) }
{
    let mut queue = Queue::new(alloc);
    if let Some(bound) = first {
        let prefix = Path::new();
        queue.add(Waiting { bound, prefix })?;
    }
    Ok(queue)
}

/// Takes out the least prefix that waits with its own bound, if there is one; the last look is then at it. Those that come
/// before it are to wait longer, or are noted where they have no bound.
fn take_settled<S, E: Explorer<S>>(
    explorer: &mut E,
    queue: &mut Queue,
    turned: &mut Turned,
) -> Result<Option<Waiting>, NoMemory>
    requires laws { IsSearchable (E.world (E.subject explorer.old)) (E.may_wait (E.subject explorer.old)) }
    requires ready { E.ready explorer.old }
    requires waiting { All (IsWaiting (E.may_wait (E.subject explorer.old))) queue.old }
    ensures subject { OnOk result (E.subject explorer.new ≡ E.subject explorer.old) }
    ensures ready { OnOk result (E.ready explorer.new) }
    ensures at { IfOk result (λ first. IfSome first (λ w. E.is_at explorer.new w.prefix.items)) }
    ensures first { IfOk result (λ first. IfSome first (λ w. IsFirst (E.world (E.subject explorer.old))
        (E.may_wait (E.subject explorer.old)) (key_of w) queue.old queue.new turned.old turned.new)) }
    ensures none { IfOk result (λ first. IfNone first (StaysSearched (E.world (E.subject explorer.old))
        (E.may_wait (E.subject explorer.old)) queue.old [] turned.old turned.new)) }
    ensures empty { IfOk result (λ first. IfNone first (queue.new ≡ [])) }
{
    while let Some(first) = queue.take_least() {
        match explorer.look(first.prefix.as_slice(), first.bound)? {
            Look::Settled => return Ok(Some(first)),
            Look::Later(bound) => {
                let prefix = first.prefix;
                queue.add(Waiting { bound, prefix })?;
            }
            Look::TurnedBack => turned.note(first.prefix)?,
        }
    }
    Ok(None)
}

/// What is found, once nothing that waits can be better than what is claimed.
fn end(
    claim: Claim,
    queue: Queue,
    turned: Turned,
    complete: usize,
    expanded: u32,
) -> Result<Found, NoMemory>
    ensures claim { IfOk result (λ found. found.claim ≡ claim) }
    ensures kept { IfOk result (λ found. IsPermutation
        (filter (λ p. nat_lt (length p) complete) turned
        ++ filter (λ p. nat_lt (length p) complete) (prefixes queue)) (paths_of found.cuts.items)) }
    ensures sorted { IfOk result (λ found. IsSorted (slice_cmp nat_cmp) (paths_of found.cuts.items)) }
    ensures expanded { IfOk result (λ found. found.expanded ≡ expanded) }
{
    let cuts = queue.into_incomplete(turned.into_incomplete(complete), complete)?;
    Ok(Found {
        claim,
        cuts,
        expanded,
    })
}

/// Finds the best path. None where the promising prefixes number more than the budget.
pub fn search<S, E: Explorer<S> + Drop>(
    alloc: Global,
    explorer: E,
    budget: u32,
) -> Result<Option<Found>, NoMemory>
    requires { E.ready explorer }
    ensures found { IfOk result (λ found. IfSome found (IsFoundFor (E.world (E.subject explorer)))) }
    ensures enough { IfOk result (λ found.
        IfSome found (λ _. AreAtMost (IsPromising (E.world (E.subject explorer))) budget)) }
    ensures over { IfOk result (λ found.
        IfNone found (AreMoreThan (IsPromising (E.world (E.subject explorer))) budget)) }
{
    explorer.laws();
    let complete = explorer.count();
    let mut explorer = explorer;
    let mut turned = Turned::new(alloc);
    let mut queue = queue_from(alloc, explorer.start())?;
    for expanded in 0..budget {
        let Some(first) = take_settled(&mut explorer, &mut queue, &mut turned)? else {
            return Ok(Some(end(Claim::NoneFits, queue, turned, complete, expanded)?));
        };
        if first.prefix.len() == complete {
            return Ok(Some(end(Claim::Best(first.prefix), queue, turned, complete, expanded)?));
        }
        explorer.add_children(first.prefix.as_slice(), first.bound, &mut queue)?;
    }
    match take_settled(&mut explorer, &mut queue, &mut turned)? {
        Some(_) => Ok(None),
        None => Ok(Some(end(Claim::NoneFits, queue, turned, complete, budget)?)),
    }
}
