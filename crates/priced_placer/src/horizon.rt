//! How a search looks ahead by the tight reach.

ghost use Rattle.std.specs.Prelude.{◌≡◌, ◌⊎◌, ◌≤◌, ◌≤ℤ◌, ℕ, [], ◌∷◌, ◌++◌, Contains, IfNone, IfOk, IfSome, Some, ⊤};
ghost use Rattle.std.specs.Result.{OnOk};
ghost use Rattle.hold_limits.specs.Problem.{Problem};
ghost use Rattle.hold_limits.specs.Faults.{IsLawful};
ghost use Rattle.hold_reach.specs.Extents.{IsBounded};
ghost use Rattle.hold_reach.specs.Reach.{Meets, gap_to_ideal};
ghost use Rattle.best_first.specs.Bounds.{AreBounds};
ghost use Rattle.best_first.specs.Looks.{Shows};
ghost use Rattle.priced_placer.specs.PriceNear.{HasTightBound};
ghost use Rattle.priced_placer.specs.Waits.{AreOf, EndAt, MayWaitTightly};

use base_words::NoMemory;
use best_first::{Horizon, Look};
use hold_limits::Task;
use hold_partial::Partial;
use hold_reach::{Span, gap_to_ideal, meets_window};
use std::alloc::Global;
use tight_bracket::Bracket;
use tight_reach::tight;

/// A search that looks ahead over ways to give the remaining containers open positions of their own. It keeps the brackets
/// of the prefixes whose bounds it found, from which those of longer ones follow in a few steps.
#[derive(Drop)]
pub struct OwnPositions<'a> {
    seen: Vec<Bracket<'a>>,
}

/// The greatest of three numbers.
fn greatest(one: u64, other: u64, third: u64) -> u64
    ensures either { (result ≡ one) ⊎ ((result ≡ other) ⊎ (result ≡ third)) }
    ensures third { third ≤ result }
{
    one.max(other).max(third)
}

/// How far the take-off indices of the span lie from the ideal band, in ticks. None where it misses the window.
fn gap_in_window(task: &Task, span: Span) -> Option<u64>
    requires lawful { IsLawful task.now }
    requires bounded { IsBounded 10000000000000000 span }
    ensures found { IfSome result (λ b. Meets task.now.low task.now.high (Some (span.low, span.high))
        × (b ≡ gap_to_ideal task.now (span.low, span.high))) }
    ensures none { IfNone result (Meets task.now.low task.now.high (Some (span.low, span.high)) → ⊥) }
{
    if meets_window(task, span) {
        Some(gap_to_ideal(task, span))
    } else {
        None
    }
}

/// How far the take-off indices in tight reach lie from the ideal band, in ticks. None where the prefix is not viable, or
/// its tight reach misses the window.
fn tight_bound(partial: &Partial<'_>) -> Option<u64>
    ensures found { IfSome result (HasTightBound partial.now.task partial.now.prefix) }
    ensures none { IfNone result ((b : ℕ) → HasTightBound partial.now.task partial.now.prefix b → ⊥) }
{
    partial.viable_bound()?;
    let (low, high) = tight(partial)?;
    let span = Span {
        low: low.0,
        high: high.0,
    };
    gap_in_window(partial.task(), span)
}

/// What the bracket of the placement shows without a look at the tight reach itself, if that is enough.
fn quick_look(partial: &Partial<'_>, bracket: &Bracket<'_>, waited: u64) -> Option<Look>
    requires same { bracket.now ≡ partial.now }
    requires waits { MayWaitTightly partial.now.task partial.now.prefix waited }
    ensures { IfSome result (Shows (HasTightBound partial.now.task partial.now.prefix)
        (MayWaitTightly partial.now.task partial.now.prefix) ⊤ waited) }
{
    let task = partial.task();
    let Some(least) = gap_in_window(task, bracket.around()) else {
        return Some(Look::TurnedBack);
    };
    if least > waited {
        return Some(Look::Later(least));
    }
    if gap_in_window(task, bracket.within()?)? == waited {
        Some(Look::Settled)
    } else {
        None
    }
}

/// What the tight reach of the placement shows.
fn exact_look(partial: &Partial<'_>, waited: u64) -> Look
    requires { MayWaitTightly partial.now.task partial.now.prefix waited }
    ensures { Shows (HasTightBound partial.now.task partial.now.prefix)
        (MayWaitTightly partial.now.task partial.now.prefix) ⊤ waited result }
{
    match tight_bound(partial) {
        Some(bound) if bound > waited => Look::Later(bound),
        Some(_) => Look::Settled,
        None => Look::TurnedBack,
    }
}

/// The bracket of the prefix without its last number, if it is among these. It is looked for from behind, since what a
/// search sees last it most often goes on from.
fn shorter_of<'b, 'a>(seen: &'b [Bracket<'a>], prefix: &[u8]) -> Option<&'b Bracket<'a>>
    ensures { IfSome result (λ bracket. Contains seen.now bracket.now) }
{
    for back in 0..seen.len() {
        let bracket = &seen[seen.len() - 1 - back];
        if bracket.precedes(prefix) {
            return Some(bracket);
        }
    }
    None
}

impl<'a> OwnPositions<'a> {
    /// Nothing was seen yet.
    pub fn new(alloc: Global) -> OwnPositions<'a>
        ensures { result.seen.items ≡ [] }
    {
        OwnPositions {
            seen: Vec::new(alloc),
        }
    }

    /// Keeps the bracket of the placement, which follows from that of the placement with one container fewer if this was
    /// seen.
    fn see(&mut self, partial: &Partial<'a>) -> Result<(), NoMemory>
        requires { AreOf self.old.seen.items partial.now.task }
        ensures { OnOk result (self.new.seen.items ≡ self.old.seen.items ++ partial.now ∷ []) }
    {
        let bracket = match shorter_of(self.seen.as_slice(), partial.prefix()) {
            Some(shorter) => shorter.followed_by(partial),
            None => Bracket::of(partial),
        };
        self.seen.push(bracket)?;
        Ok(())
    }

    /// What the placement shows that waited with so many ticks. Its bracket, which was kept last, is made anew where it
    /// does not tell, so that the next ones follow from the better one.
    fn look_closer(&mut self, partial: &Partial<'a>, waited: u64) -> Result<Look, NoMemory>
        requires kept { EndAt self.old.seen.items partial.now.task partial.now.prefix }
        requires waits { MayWaitTightly partial.now.task partial.now.prefix waited }
        ensures kept { OnOk result (self.new.seen.items ≡ self.old.seen.items) }
        ensures shown { IfOk result (Shows (HasTightBound partial.now.task partial.now.prefix)
            (MayWaitTightly partial.now.task partial.now.prefix) ⊤ waited) }
    {
        if let Some(look) = self.last_look(partial, waited) {
            return Ok(look);
        }
        self.seen.truncate(self.seen.len() - 1);
        self.seen.push(Bracket::of(partial))?;
        match self.last_look(partial, waited) {
            Some(look) => Ok(look),
            None => Ok(exact_look(partial, waited)),
        }
    }

    /// What the bracket that was kept last shows of its placement, if that is enough.
    fn last_look(&self, partial: &Partial<'a>, waited: u64) -> Option<Look>
        requires kept { EndAt self.now.seen.items partial.now.task partial.now.prefix }
        requires waits { MayWaitTightly partial.now.task partial.now.prefix waited }
        ensures { IfSome result (Shows (HasTightBound partial.now.task partial.now.prefix)
            (MayWaitTightly partial.now.task partial.now.prefix) ⊤ waited) }
    {
        quick_look(partial, self.seen.last()?, waited)
    }
}

impl<'a> Horizon<'a> for OwnPositions<'a> {
    ghost use Rattle.priced_placer.specs.PriceNear.{HasTightBound};
    ghost use Rattle.priced_placer.specs.Waits.{AreOf, EndAt, MayWaitTightly};

    ghost has_bound = { HasTightBound };

    ghost may_wait = { MayWaitTightly };

    ghost serves = { λ own t. AreOf own.seen.items t };

    ghost is_at = { λ own t prefix. EndAt own.seen.items t prefix };

    fn look(&mut self, partial: &Partial<'a>, waited: u64) -> Result<Look, NoMemory> {
        let kept = self.seen.len();
        self.see(partial)?;
        let look = self.look_closer(partial, waited)?;
        if !matches!(look, Look::Settled) {
            self.seen.truncate(kept);
        }
        Ok(look)
    }

    fn wait_on(&self, partial: &Partial<'a>, bound: u64, number: u8, reach: u64) -> u64 {
        let Some(bracket) = self.seen.last() else {
            unreachable!();
        };
        match gap_in_window(partial.task(), bracket.around_on(number)) {
            Some(gap) => greatest(gap, reach, bound),
            None => u64::MAX,
        }
    }

    fn laws()
        ensures { (t : Problem) → t.ideal_low ≤ℤ t.ideal_high → AreBounds t (HasTightBound t) (MayWaitTightly t) }
    {}
}
