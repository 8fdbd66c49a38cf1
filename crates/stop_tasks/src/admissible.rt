//! Whether a placement over several sectors keeps the limits of each of them: the plain test, without a search.

ghost use Rattle.std.specs.Prelude.{◌≤◌, ◌↔◌, length, IsTrue};
ghost use Rattle.hold_limits.specs.Placement.{IsAdmissible};
ghost use Rattle.stop_tasks.specs.StopPaths.{IsStopAdmissible, OnSectors};

use crate::paths::{is_reachable, part_of};
use crate::stop_task::StopTask;
use hold_limits::{Task, is_admissible};

/// Whether the path's part is admissible on each sector.
fn are_parts_admissible(sectors: &[Task], last: &[u8], path: &[u8]) -> bool
    requires sectors { length sectors.now ≤ 3 }
    requires path { length path.now ≤ 60 }
    ensures { IsTrue result ↔ OnSectors IsAdmissible sectors.now last.now path.now }
{
    for place in 0..sectors.len() {
        if !is_admissible(
            &sectors[place],
            part_of(last, place as u8 + 1, path).as_slice(),
        ) {
            return false;
        }
    }
    true
}

/// Whether a path can be unloaded at each stop, and its part is admissible on each sector.
pub fn is_stop_admissible(t: &StopTask, path: &[u8]) -> bool
    ensures { IsTrue result ↔ IsStopAdmissible t.now path.now }
{
    if path.len() != t.first().items().len() {
        return false;
    }
    let last = t.last_sectors();
    is_reachable(last.as_slice(), t.behind(), path)
        && are_parts_admissible(t.sectors(), last.as_slice(), path)
}
