//! The walk through the viable prefixes that begin with no cut, in path order.
//!
//! Every beginning of a viable prefix is viable. The cuts are viable and rise, and none begins with another. So the walk
//! meets the cuts one by one in their order, and knows each when it comes to it.

ghost use Rattle.std.specs.Prelude.{◌≡◌, ◌↔◌, ◌+◌, ◌-◌, ◌^◌, ◌<◌, ◌≤◌, ◌⊎◌, ◌++◌, ◌∷◌, [], IsTrue, IfOk, IfErr, Some, ℕ, All, AllPairs, false, length, slice_get};
ghost use Rattle.base_words.specs.Lists.{Extends};
ghost use Rattle.hold_reach.specs.Reach.{IsViable};
ghost use Rattle.certificate.specs.Good.{IsBefore, IsUncut, AreInOrder};
ghost use Rattle.cert_checker.specs.FirstReason.{Pass, PrefixFails, AllPass};
ghost use Rattle.cert_checker.specs.Evidence.{claim_in, cuts_in, IsMeasured};
ghost use Rattle.cert_checker.specs.Steps.{AreFirst, Stops};

use crate::claim::is_at_least;
use crate::reject::Reject;
use crate::standard::Evidence;
use certificate::Cut;
use hold_limits::Path;
use hold_partial::{Partial, advances};

/// How many cuts the walk has met, and how many more incomplete prefixes it may pass.
#[derive(Drop)]
pub struct Progress {
    pub met: usize,
    pub left: u32,
}

/// Whether the list is the front with this number after it.
fn is_longer_by(list: &[u8], front: &[u8], number: u8) -> bool
    ensures { IsTrue result ↔ (list.now ≡ front.now ++ number ∷ []) }
{
    match list.split_last() {
        Some((last, rest)) => *last == number && rest == front,
        None => false,
    }
}

/// Whether the cut at the place is the front with this number after it.
fn has_cut_at<C: Cut>(evidence: &Evidence<'_, C>, at: usize, front: &[u8], number: u8) -> bool
    ensures is { IsTrue result ↔ (slice_get (cuts_in C.prefix_of evidence.now) at ≡ Some (front.now ++ number ∷ [])) }
    ensures inside { IsTrue result → at < length (cuts_in C.prefix_of evidence.now) }
    ensures next_fits { IsTrue result → at + 1 < 2 ^ 64 }
{
    at < evidence.cuts.len() && is_longer_by(evidence.cuts[at].prefix().as_slice(), front, number)
}

/// Passes the prefix and those that begin with it. True if none of them fails; else the placement stays at the first
/// that does.
fn pass<C: Cut>(
    partial: &mut Partial<'_>,
    evidence: &Evidence<'_, C>,
    progress: &mut Progress,
) -> bool
    requires measured { IsMeasured partial.old.task evidence.now.standard }
    requires rising { AllPairs AreInOrder (cuts_in C.prefix_of evidence.now) }
    requires viable { All (IsViable partial.old.task) (cuts_in C.prefix_of evidence.now) }
    requires uncut { IsUncut (cuts_in C.prefix_of evidence.now) partial.old.prefix }
    requires met { AreFirst (cuts_in C.prefix_of evidence.now) progress.old.met (λ cut. IsBefore cut partial.old.prefix) }
    ensures task { partial.new.task ≡ partial.old.task }
    ensures same { IsTrue result → partial.new ≡ partial.old }
    ensures met { IsTrue result → AreFirst (cuts_in C.prefix_of evidence.now) progress.new.met
        (λ cut. IsBefore cut partial.old.prefix ⊎ Extends partial.old.prefix cut) }
    ensures left { IsTrue result → progress.new.left ≤ progress.old.left }
    ensures passed { IsTrue result → Pass partial.old.task (claim_in evidence.now) (cuts_in C.prefix_of evidence.now)
        (Extends partial.old.prefix) (progress.old.left - progress.new.left) }
    ensures stopped { result ≡ false → Stops partial.old.task (claim_in evidence.now) (cuts_in C.prefix_of evidence.now)
        (Extends partial.old.prefix) progress.old.left partial.new.prefix }
{
    let task = partial.task();
    let Some(bound) = partial.viable_bound() else {
        return true;
    };
    if partial.prefix().len() == task.items().len() {
        return is_at_least(evidence, bound, partial.prefix());
    }
    if progress.left == 0 {
        return false;
    }
    progress.left -= 1;
    for number in 0..task.hold().position_count() {
        if has_cut_at(evidence, progress.met, partial.prefix(), number) {
            progress.met += 1;
        } else if advances(partial, number) {
            if !pass(partial, evidence, progress) {
                return false;
            }
            partial.undo();
        }
    }
    true
}

/// Whether the first cut is the empty prefix, with which all begin.
fn is_all_cut<C: Cut>(evidence: &Evidence<'_, C>) -> bool
    ensures { IsTrue result ↔ (slice_get (cuts_in C.prefix_of evidence.now) 0 ≡ Some []) }
{
    match evidence.cuts.first() {
        Some(cut) => cut.prefix().as_slice().is_empty(),
        None => false,
    }
}

/// The path with these numbers.
fn copy_of(prefix: &[u8]) -> Path
    requires { length prefix.now ≤ 60 }
    ensures { result.items ≡ prefix.now }
{
    match Path::try_from(prefix) {
        Ok(path) => path,
        Err(_) => unreachable!(),
    }
}

/// How the prefix fails at which a walk has stopped.
fn fault_at<C: Cut>(partial: &Partial<'_>, evidence: &Evidence<'_, C>) -> Reject
    ensures { (allowed : ℕ)
        → Stops partial.now.task (claim_in evidence.now) (cuts_in C.prefix_of evidence.now) (Extends []) allowed partial.now.prefix
        → PrefixFails partial.now.task (claim_in evidence.now) (cuts_in C.prefix_of evidence.now) allowed result }
{
    let prefix = partial.prefix();
    if prefix.len() < partial.task().items().len() {
        return Reject::MoreExpanded;
    }
    let path = copy_of(prefix);
    match &evidence.standard {
        Some(_) => Reject::Nearer(path),
        None => Reject::Exists(path),
    }
}

/// Tests the viable prefixes that begin with no cut, in path order. At most `allowed` of them may be incomplete. The walk
/// begins at the empty prefix, so a placement that was moved goes back there first, and it leaves the placement where it
/// ends. It takes no memory.
pub fn check_prefixes<C: Cut>(
    partial: &mut Partial<'_>,
    evidence: &Evidence<'_, C>,
    allowed: u32,
) -> Result<(), Reject>
    requires start { partial.old.prefix ≡ [] }
    requires measured { IsMeasured partial.old.task evidence.now.standard }
    requires rising { AllPairs AreInOrder (cuts_in C.prefix_of evidence.now) }
    requires viable { All (IsViable partial.old.task) (cuts_in C.prefix_of evidence.now) }
    ensures passed { IfOk result (λ _. AllPass partial.old.task (claim_in evidence.now) (cuts_in C.prefix_of evidence.now) allowed) }
    ensures fails { IfErr result (PrefixFails partial.old.task (claim_in evidence.now) (cuts_in C.prefix_of evidence.now) allowed) }
{
    if is_all_cut(evidence) {
        return Ok(());
    }
    let mut progress = Progress {
        met: 0,
        left: allowed,
    };
    if pass(partial, evidence, &mut progress) {
        return Ok(());
    }
    Err(fault_at(partial, evidence))
}
