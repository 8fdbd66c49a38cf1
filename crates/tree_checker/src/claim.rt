//! Whether a claim holds, and the ticks that its trees are about.

ghost use Rattle.std.specs.Prelude.{◌≡◌, ◌≤◌, IfOk, IfErr, IfSome, length};
ghost use Rattle.hold_limits.specs.Placement.{IsAdmissible, distance};
ghost use Rattle.price_trees.specs.Narrowing.{window, ticks_within};
ghost use Rattle.certificate.specs.Evidence.{claimed};
ghost use Rattle.choice_prices.specs.Pricing.{ticks_of};
ghost use Rattle.tree_checker.specs.GoodTrees.{nearer_ticks};
ghost use Rattle.tree_checker.specs.Steps.{path_of, path_or_empty, IsMeasured};
ghost use Rattle.tree_checker.specs.declared.rejection.TreeRejection.TheVariants.{NotAPlacement};

use crate::rejection::TreeRejection;
use certificate::Claim;
use hold_limits::{Path, Task, is_admissible, outcome};
use hold_reach::Span;

/// A claimed path, and how far its take-off index lies from the ideal band, in ticks.
#[derive(Clone, Copy)]
pub struct Claimed<'a> {
    pub path: &'a Path,
    pub distance: u64,
}

/// The claimed path with its distance, if one is claimed. It is refused where it is not admissible.
pub fn claimed_path<'a>(task: &Task, claim: &'a Claim) -> Result<Option<Claimed<'a>>, TreeRejection>
    ensures path { IfOk result (λ found. path_of found ≡ claimed claim.now) }
    ensures measured { IfOk result (λ found. IsMeasured task.now found) }
    ensures holds { IfOk result (λ _. IfSome (claimed claim.now) (IsAdmissible task.now)) }
    ensures refused { IfErr result (λ rejection. rejection ≡ NotAPlacement) }
    ensures fails { IfErr result (λ _. IfSome (claimed claim.now) (IsAdmissible task.now) → ⊥) }
{
    let Claim::Best(path) = claim else {
        return Ok(None);
    };
    if !is_admissible(task, path.as_slice()) {
        return Err(TreeRejection::NotAPlacement);
    }
    let distance = outcome(task, path).1;
    Ok(Some(Claimed { path, distance }))
}

/// The numbers of the claimed path; none where none is claimed.
pub fn claimed_numbers<'a>(claimed: &Option<Claimed<'a>>) -> &'a [u8]
    ensures value { result.now ≡ path_or_empty claimed.now }
    ensures few { length result.now ≤ 60 }
{
    match claimed {
        Some(found) => found.path.as_slice(),
        None => &[],
    }
}

/// The ticks of the window.
pub fn window_span(task: &Task) -> Span
    ensures { ticks_of result ≡ window task.now }
{
    Span {
        low: task.low().0,
        high: task.high().0,
    }
}

/// The ticks of the window whose take-off index is at most so far from the ideal band.
pub fn span_within(task: &Task, distance: u64) -> Span
    requires { distance ≤ 250000000000 }
    ensures { ticks_of result ≡ ticks_within task.now distance }
{
    let _lawful = task.items();
    let distance = distance as i64;
    let base = task.base().0;
    Span {
        low: task.low().0.max(task.ideal_low().0 - base - distance),
        high: task.high().0.min(task.ideal_high().0 - base + distance),
    }
}

/// The ticks that are nearer to the ideal band: none where the distance is 0.
pub fn nearer_span(task: &Task, distance: u64) -> Span
    requires { distance ≤ 250000000000 }
    ensures { ticks_of result ≡ nearer_ticks task.now distance }
{
    if distance == 0 {
        Span { low: 1, high: 0 }
    } else {
        span_within(task, distance - 1)
    }
}
