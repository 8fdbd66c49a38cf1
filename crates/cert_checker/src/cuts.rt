//! Whether the cuts of a certificate hold.

ghost use Rattle.std.specs.Prelude.{◌≡◌, ◌↔◌, ◌<◌, ◌≤◌, ◌+◌, IfOk, IfErr, IfSome, IfNone, IsTrue, Some, List, ℕ, AllPairs, length, take, slice_get};
ghost use Rattle.hold_reach.specs.Reach.{bound};
ghost use Rattle.certificate.specs.Good.{AreInOrder};
ghost use Rattle.cert_checker.specs.FirstReason.{CutsHold, IsInOrder, CanBeCut, CutFails};
ghost use Rattle.cert_checker.specs.Evidence.{claim_in, cuts_in, IsMeasured};
ghost use Rattle.cert_checker.specs.Steps.{paths_in};

use crate::claim::is_at_least;
use crate::reject::Reject;
use crate::standard::Evidence;
use certificate::Cut;
use hold_limits::Path;
use hold_partial::{Partial, move_to};

/// Whether the later cut comes after the earlier one, and does not begin with it.
fn are_in_order(earlier: &[u8], later: &[u8]) -> bool
    ensures { IsTrue result ↔ AreInOrder earlier.now later.now }
{
    earlier.cmp(later).is_lt() && !later.starts_with(earlier)
}

/// Whether the cut at the place comes after those before it, which rise, and begins with none of them. Only the cut
/// before it is looked at.
pub fn is_in_order<C: Cut>(evidence: &Evidence<'_, C>, at: usize) -> bool
    requires within { at < length (cuts_in C.prefix_of evidence.now) }
    requires rising { AllPairs AreInOrder (take at (cuts_in C.prefix_of evidence.now)) }
    ensures { (cut : List ℕ) → slice_get (cuts_in C.prefix_of evidence.now) at ≡ Some cut
        → IsTrue result ↔ IsInOrder (cuts_in C.prefix_of evidence.now) at cut }
{
    let cuts = evidence.cuts;
    at == 0
        || are_in_order(
            cuts[at - 1].prefix().as_slice(),
            cuts[at].prefix().as_slice(),
        )
}

/// The bound of a prefix at which a search can turn back, in ticks. The placement moves to it. None where the prefix is
/// not viable, or not incomplete; where the placement then stands is not told.
pub fn cut_bound(partial: &mut Partial<'_>, prefix: &[u8]) -> Option<u64>
    ensures task { partial.new.task ≡ partial.old.task }
    ensures placed { IfSome result (λ _. partial.new.prefix ≡ prefix.now) }
    ensures found { IfSome result (λ b. CanBeCut partial.old.task prefix.now
        × (bound partial.old.task prefix.now ≡ Some b)) }
    ensures none { IfNone result (CanBeCut partial.old.task prefix.now → ⊥) }
{
    if prefix.len() >= partial.task().items().len() || !move_to(partial, prefix) {
        return None;
    }
    partial.viable_bound()
}

/// The fault of the cut at a place, where those before it hold. The placement moves to the cut.
fn fault_of_cut(
    partial: &mut Partial<'_>,
    evidence: &Evidence<'_, Path>,
    at: usize,
) -> Option<Reject>
    requires within { at < length (paths_in evidence.now) }
    requires measured { IsMeasured partial.old.task evidence.now.standard }
    requires before { CutsHold partial.old.task (claim_in evidence.now) (take at (paths_in evidence.now)) }
    ensures task { partial.new.task ≡ partial.old.task }
    ensures holds { IfNone result (CutsHold partial.old.task (claim_in evidence.now)
        (take (at + 1) (paths_in evidence.now))) }
    ensures fails { IfSome result (CutFails partial.old.task (claim_in evidence.now) (paths_in evidence.now)) }
{
    if !is_in_order(evidence, at) {
        return Some(Reject::CutOrder(at));
    }
    let cut = evidence.cuts[at].as_slice();
    let Some(bound) = cut_bound(partial, cut) else {
        return Some(Reject::CutNotViable(at));
    };
    if !is_at_least(evidence, bound, cut) {
        return Some(Reject::CutWeak(at));
    }
    None
}

/// Tests the cuts in their order. The placement moves from cut to cut.
pub fn check_cuts(partial: &mut Partial<'_>, evidence: &Evidence<'_, Path>) -> Result<(), Reject>
    requires measured { IsMeasured partial.old.task evidence.now.standard }
    ensures task { partial.new.task ≡ partial.old.task }
    ensures hold { IfOk result (λ _. CutsHold partial.old.task (claim_in evidence.now) (paths_in evidence.now)) }
    ensures fails { IfErr result (CutFails partial.old.task (claim_in evidence.now) (paths_in evidence.now)) }
{
    for at in 0..evidence.cuts.len() {
        if let Some(fault) = fault_of_cut(partial, evidence, at) {
            return Err(fault);
        }
    }
    Ok(())
}
