//! The writer of a load's text.

ghost use Rattle.std.specs.Prelude.{◌≡◌, ◌++◌, All, IfOk, OnOk};
ghost use Rattle.hold_limits.specs.Faults.{IsLawful};
ghost use Rattle.text_lines.specs.Lines.{text_of};
ghost use Rattle.text_lines.specs.WordRuns.{run_text};
ghost use Rattle.problem_text.specs.TaskText.{IsSpelled, task_lines};
ghost use Rattle.stop_text.specs.StopFile.{StopFile, Spells, stops_of_file};
ghost use Rattle.stop_text.specs.StopRefusals.{HasNoFault};
ghost use Rattle.stop_text.specs.Writing.{IsFileOf};

use crate::line_writers::{PairsBehind, push_leaves};
use base_words::NoMemory;
use hold_limits::Task;
use problem_text::write_task;
use std::alloc::Global;
use stop_tasks::StopTask;
use telex::Builder;
use text_lines::write_lines;

/// Appends the texts of the tasks, one after another.
fn push_tasks(out: &mut Builder, alloc: Global, tasks: &[Task]) -> Result<(), NoMemory>
    ensures added { OnOk result (out.new ≡ out.old ++ run_text (λ t. text_of (task_lines t)) tasks.now) }
    ensures spelled { OnOk result (All IsSpelled tasks.now) }
    ensures lawful { OnOk result (All IsLawful tasks.now) }
{
    for task in tasks {
        let _lawful = task.items();
        let text = write_task(alloc, task)?;
        out.text(text.as_slice())?;
    }
    Ok(())
}

/// Writes the one text of the load. Read back, it is the same load.
pub fn write_stops(alloc: Global, t: &StopTask) -> Result<Vec<u8>, NoMemory>
    ensures written { IfOk result (λ text. (file : StopFile) × IsFileOf t.now file × Spells text.items file) }
    ensures same { (file : StopFile) → IsFileOf t.now file → stops_of_file file ≡ t.now }
    ensures lawful { IfOk result (λ text. All HasNoFault t.now.sectors) }
{
    let first = t.first();
    let hold = first.hold();
    let mut out = Builder::new(alloc);
    out.text(b"STOPS 1\n")?;
    push_leaves(&mut out, first.items(), t.leaves())?;
    write_lines(&PairsBehind(hold), t.behind(), &mut out)?;
    push_tasks(&mut out, alloc, t.sectors())?;
    Ok(out.finish())
}
