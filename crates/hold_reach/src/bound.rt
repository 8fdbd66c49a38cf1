//! What a span of hold indices means for the window and for the ideal band of a task.

ghost use Rattle.std.specs.Prelude.{◌≡◌, ◌↔◌, IsTrue, Some};
ghost use Rattle.hold_limits.specs.Faults.{IsLawful};
ghost use Rattle.hold_reach.specs.Extents.{IsBounded};
ghost use Rattle.hold_reach.specs.Reach.{Meets, MeetsLateral, gap, gap_to_ideal};

use crate::span::Span;
use hold_limits::{Hold, Task};

fn gap_between(indices: Span, ideal: Span) -> u64
    ensures { result ≡ gap indices.low indices.high ideal.low ideal.high }
{
    if indices.high < ideal.low {
        ideal.low.abs_diff(indices.high)
    } else if ideal.high < indices.low {
        indices.low.abs_diff(ideal.high)
    } else {
        0
    }
}

/// How far the take-off indices lie from the ideal band, in ticks, where the hold index goes over this span.
pub fn gap_to_ideal(task: &Task, hold_indices: Span) -> u64
    requires lawful { IsLawful task.now }
    requires bounded { IsBounded 10000000000000000 hold_indices }
    ensures { result ≡ gap_to_ideal task.now (hold_indices.low, hold_indices.high) }
{
    let ideal = Span {
        low: task.ideal_low().0,
        high: task.ideal_high().0,
    };
    gap_between(Span::at(task.base().0).plus(hold_indices), ideal)
}

/// Whether some hold index of the span is in the window of the task.
pub fn meets_window(task: &Task, hold_indices: Span) -> bool
    ensures { IsTrue result
        ↔ Meets task.now.low task.now.high (Some (hold_indices.low, hold_indices.high)) }
{
    hold_indices.meets(Span {
        low: task.low().0,
        high: task.high().0,
    })
}

/// Whether some lateral difference of the span is within the lateral limit of the hold, if it has one.
pub fn meets_lateral_limit(hold: &Hold, differences: Span) -> bool
    ensures { IsTrue result
        ↔ MeetsLateral hold.now (Some (differences.low, differences.high)) }
{
    match hold.lateral() {
        Some(limit) => differences.meets(Span::around_zero(limit.most)),
        None => true,
    }
}
