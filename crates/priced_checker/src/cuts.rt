//! Whether the cuts of a certificate with prices hold.

ghost use Rattle.std.specs.Prelude.{◌≡◌, ◌↔◌, ◌<◌, ◌≤◌, ◌+◌, ℤ, IfOk, IfErr, IfSome, IfNone, IsTrue, length, take, unsigned_abs};
ghost use Rattle.hold_limits.specs.Faults.{IsLawful};
ghost use Rattle.cert_checker.specs.Evidence.{claim_in, IsMeasured};
ghost use Rattle.priced_checker.specs.Good.{IsBeyond};
ghost use Rattle.priced_checker.specs.FirstReason.{PricedCutsHold, PricedCutFails};

use crate::reject::PricedReject;
use assignment_prices::span;
use cert_checker::{Evidence, cut_bound, is_at_least, is_in_order};
use hold_limits::Task;
use hold_partial::Partial;
use hold_reach::{Span, gap_to_ideal, meets_window};
use priced_certificate::PricedCut;

/// Whether hold indices of this span show that nothing better than the claimed path begins with the prefix.
fn is_beyond(
    task: &Task,
    evidence: &Evidence<'_, PricedCut>,
    prefix: &[u8],
    ends: (i64, i64),
) -> bool
    requires lawful { IsLawful task.now }
    requires measured { IsMeasured task.now evidence.now.standard }
    requires low { unsigned_abs ends.0 ≤ 2000000000000000 }
    requires high { unsigned_abs ends.1 ≤ 2000000000000000 }
    ensures { IsTrue result ↔ IsBeyond task.now (claim_in evidence.now) prefix.now ends }
{
    let span = Span {
        low: ends.0,
        high: ends.1,
    };
    !meets_window(task, span) || is_at_least(evidence, gap_to_ideal(task, span), prefix)
}

/// The fault of the cut at a place, where those before it hold. The placement moves to the cut.
fn fault_of_cut(
    partial: &mut Partial<'_>,
    evidence: &Evidence<'_, PricedCut>,
    at: usize,
) -> Option<PricedReject>
    requires within { at < length evidence.now.cuts.now }
    requires measured { IsMeasured partial.old.task evidence.now.standard }
    requires before { PricedCutsHold partial.old.task (claim_in evidence.now) (take at evidence.now.cuts.now) }
    ensures task { partial.new.task ≡ partial.old.task }
    ensures holds { IfNone result (PricedCutsHold partial.old.task (claim_in evidence.now)
        (take (at + 1) evidence.now.cuts.now)) }
    ensures fails { IfSome result (PricedCutFails partial.old.task (claim_in evidence.now) evidence.now.cuts.now) }
{
    if !is_in_order(evidence, at) {
        return Some(PricedReject::CutOrder(at));
    }
    let cut = &evidence.cuts[at];
    let prefix = cut.prefix.as_slice();
    let Some(_bound) = cut_bound(partial, prefix) else {
        return Some(PricedReject::CutNotViable(at));
    };
    let Some(ends) = span(partial, &cut.prices) else {
        return Some(PricedReject::Prices(at));
    };
    if !is_beyond(partial.task(), evidence, prefix, ends) {
        return Some(PricedReject::CutWeak(at));
    }
    None
}

/// Tests the cuts in their order. The placement moves from cut to cut.
pub fn check_cuts(
    partial: &mut Partial<'_>,
    evidence: &Evidence<'_, PricedCut>,
) -> Result<(), PricedReject>
    requires measured { IsMeasured partial.old.task evidence.now.standard }
    ensures task { partial.new.task ≡ partial.old.task }
    ensures hold { IfOk result (λ _. PricedCutsHold partial.old.task (claim_in evidence.now) evidence.now.cuts.now) }
    ensures fails { IfErr result (PricedCutFails partial.old.task (claim_in evidence.now) evidence.now.cuts.now) }
{
    for at in 0..evidence.cuts.len() {
        if let Some(fault) = fault_of_cut(partial, evidence, at) {
            return Err(fault);
        }
    }
    Ok(())
}
