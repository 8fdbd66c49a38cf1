//! The reader of a load's text.

ghost use Rattle.std.specs.Prelude.{◌≡◌, All, IfOk, IfErr, MatchResult};
ghost use Rattle.hold_limits.specs.Faults.{IsLawful};
ghost use Rattle.stop_tasks.specs.StopFaults.{AreLawfulStops};
ghost use Rattle.stop_text.specs.StopFile.{StopFile, Spells, sectors_of, stops_of_file};
ghost use Rattle.stop_text.specs.StopRefusals.{HasWrongLines, HasNoFault, IsRefusedStops, stop_text_fault};
ghost use Rattle.stop_text.specs.Reading.{ArePartsOf};
ghost use Rattle.stop_text.specs.declared.fault.StopTextFault.{StopTextFault};

use crate::ends::{last_task, next_task};
use crate::fault::StopTextFault;
use crate::line_readers::{BehindLines, LeaveLines};
use crate::load::load_of;
use crate::parts::Parts;
use std::alloc::Global;
use stop_tasks::StopTask;
use text_lines::{LineFault, Lines, expect_line, read_section};

/// What the lines of the text say.
fn read_parts(alloc: Global, text: &[u8]) -> Result<Parts, LineFault>
    ensures read { IfOk result (λ parts. (file : StopFile) × Spells text.now file × ArePartsOf file parts) }
    ensures refused { IfErr result (HasWrongLines text.now) }
{
    let mut lines = Lines::new(text);
    expect_line(b"STOPS 1", &mut lines)?;
    let leaves = read_section(alloc, &LeaveLines, &mut lines)?;
    let behind = read_section(alloc, &BehindLines, &mut lines)?;
    let first = next_task(alloc, &mut lines)?;
    let second = next_task(alloc, &mut lines)?;
    let third = last_task(alloc, &mut lines)?;
    Ok(Parts {
        leaves,
        behind,
        first,
        second,
        third,
    })
}

/// Reads the load that the text spells. Each line ends with one LF, and its words are separated by one space.
///
/// A text that spells no load is refused with the number of its first wrong line, or for its early end. One that spells
/// a task which is not lawful is refused with the fault of the first such task, and one whose tasks are lawful with what
/// is wrong with the load of these tasks. Behind two tasks, a text that goes on goes on with a third one.
pub fn read_stops(alloc: Global, text: &[u8]) -> Result<StopTask, StopTextFault>
    ensures read { IfOk result (λ t. (file : StopFile) × Spells text.now file × (t ≡ stops_of_file file)
        × AreLawfulStops t × All IsLawful t.sectors) }
    ensures refused { IfErr result (IsRefusedStops text.now) }
    ensures complete { (file : StopFile) → Spells text.now file → All HasNoFault (sectors_of file)
        → AreLawfulStops (stops_of_file file) → MatchResult result (λ t. t ≡ stops_of_file file) (λ fault. fault ≡ StopTextFault.NoMemory) }
{
    load_of(alloc, read_parts(alloc, text)?)
}
