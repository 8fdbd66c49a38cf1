//! The partial placement over several sectors.

ghost use Rattle.std.specs.Prelude.{◌≡◌, ◌↔◌, ◌≤◌, [], ℕ, List, Option, Some, IfNone, IfOk, IfSome, IsOk, IsTrue, length, option_map, slice_get};
ghost use Rattle.hold_limits.specs.Placement.{IsSound};
ghost use Rattle.hold_limits.specs.Problem.{Problem};
ghost use Rattle.hold_partial.specs.Placing.{Placing};
ghost use Rattle.hold_reach.specs.Reach.{wide_bound};
ghost use Rattle.stop_tasks.specs.StopPaths.{IsFirstSector, IsStopViable, IsWidelyViable, part_of};
ghost use Rattle.stop_partial.specs.Next.{AreNext};

use crate::next::NextPositions;
use crate::sector::{moves_to_viable, next_after};
use arrayvec::ArrayVec;
use hold_limits::Task;
use hold_partial::{Partial, RuleBroken};
use std::marker::Model;
use stop_tasks::{StopTask, is_reachable, part_of};

/// A load over two or three sectors with a sound prefix on each of them, so that a search moves all sectors from one
/// prefix to the next and nothing is summed anew. Callers see the load alone.
#[derive(Drop)]
pub struct StopPartial<'a> {
    stops: &'a StopTask,
    /// The last sector of each container, in branch order.
    last: ArrayVec<u8, 60>,
    first: Partial<'a>,
    second: Partial<'a>,
    third: Option<Partial<'a>>,
}

impl<'a> Model for StopPartial<'a> {
    ghost use Rattle.std.specs.Prelude.{option_map};
    ghost use Rattle.hold_partial.specs.Placing.{Placing};
    ghost use Rattle.stop_tasks.specs.Stops.{Stops};
    ghost use Rattle.stop_partial.specs.Sectors.{AreSectors};

    ghost Value = { Stops };

    ghost view = { λ p. p.stops.now };

    ghost invariant = { λ p. AreSectors p.stops.now p.last.items p.first.task p.second.task
        (option_map (λ (third : Placing). third.task) p.third) };
}

/// The third sector without containers, if there is a third sector. It is refused where its loose loads alone break a
/// limit of the hold.
fn third_of<'a>(sectors: &'a [Task]) -> Result<Option<Partial<'a>>, RuleBroken>
    ensures made { IfOk result (λ third. option_map (λ (p : Placing). p.task) third
        ≡ slice_get sectors.now 2) }
    ensures sound { IsOk result ↔ IfSome (slice_get sectors.now 2) (λ (task : Problem). IsSound task []) }
{
    match sectors.get(2) {
        Some(task) => Ok(Some(Partial::new(task)?)),
        None => Ok(None),
    }
}

/// Moves the third sector, if there is one, to its part of a prefix. True where that part is viable.
fn moves_third(third: &mut Option<Partial<'_>>, last: &[u8], prefix: &[u8]) -> bool
    requires { length prefix.now ≤ 60 }
    ensures task { option_map (λ (p : Placing). p.task) third.new ≡ option_map (λ (p : Placing). p.task) third.old }
    ensures viable { IsTrue result ↔ IfSome third.old (λ (p : Placing).
        IsWidelyViable p.task (part_of last.now 3 prefix.now)) }
{
    match third {
        Some(third) => moves_to_viable(third, part_of(last, 3, prefix).as_slice()),
        None => true,
    }
}

impl<'a> StopPartial<'a> {
    /// The load without containers. None where the loose loads of a sector alone break a limit of its hold, and then no
    /// prefix is viable.
    pub fn new(stops: &'a StopTask) -> Option<StopPartial<'a>>
        ensures made { IfSome result (λ made. made ≡ stops.now) }
        ensures none { IfNone result ((prefix : List ℕ) → IsStopViable stops.now prefix → ⊥) }
    {
        let sectors = stops.sectors();
        Some(StopPartial {
            stops,
            last: stops.last_sectors(),
            first: Partial::new(stops.first()).ok()?,
            second: Partial::new(&sectors[1]).ok()?,
            third: third_of(sectors).ok()?,
        })
    }

    /// Moves each sector to its part of the prefix, and tells how near the ideal the first sector can still come from
    /// there, in ticks. None where the prefix is not viable.
    pub fn viable_bound_at(&mut self, prefix: &[u8]) -> Option<u64>
        ensures found { IfSome result (λ b. IsStopViable self.old prefix.now
            × ((first : Problem) → IsFirstSector self.old first → wide_bound first prefix.now ≡ Some b)) }
        ensures none { IfNone result (IsStopViable self.old prefix.now → ⊥) }
        ensures load { self.new ≡ self.old }
    {
        if prefix.len() > self.last.len()
            || !is_reachable(self.last.as_slice(), self.stops.behind(), prefix)
        {
            return None;
        }
        if !moves_to_viable(&mut self.first, prefix) {
            return None;
        }
        let second = part_of(self.last.as_slice(), 2, prefix);
        if !moves_to_viable(&mut self.second, second.as_slice()) {
            return None;
        }
        if !moves_third(&mut self.third, self.last.as_slice(), prefix) {
            return None;
        }
        self.first.wide_bound()
    }

    /// Moves the first sector to the prefix, and answers where its next container may stand there. It may stand nowhere
    /// where the prefix is not sound on the first sector or has every container.
    pub fn next_after(&mut self, prefix: &[u8]) -> NextPositions
        ensures next { (first : Problem) → IsFirstSector self.old first → AreNext first prefix.now result }
        ensures load { self.new ≡ self.old }
    {
        next_after(&mut self.first, prefix)
    }
}
