//! The text of an answer over several sectors.

ghost use Rattle.std.specs.Prelude.{◌≡◌, ◌++◌, ◌∷◌, [], ◌≤◌, length, drop, codes, IfOk, OnOk};
ghost use Rattle.hold_limits.specs.Placement.{IsSound, take_off_index};
ghost use Rattle.text_lines.specs.Lines.{text_of};
ghost use Rattle.plan_text.specs.PlanText.{one_line};
ghost use Rattle.stop_tasks.specs.StopPaths.{IsStopAdmissible, OnSectors};
ghost use Rattle.stop_placer.specs.StopAnswers.{IfBest};
ghost use Rattle.stop_answer.specs.AnswerText.{sector_line, sector_lines, stop_plan_lines, stop_answer_text};

use base_words::NoMemory;
use hold_limits::{Path, Task, outcome};
use placer::write_budget;
use plan_text::{push_balance, push_place_lines};
use std::alloc::Global;
use stop_placer::StopAnswer;
use stop_tasks::{StopTask, part_of};
use telex::Builder;

/// Appends `sector NUMBER INDEX`: the take-off index of the sector with the part of a path that is still aboard there.
fn push_sector_line(
    out: &mut Builder,
    number: u8,
    sector: &Task,
    part: &Path,
) -> Result<(), NoMemory>
    requires { IsSound sector.now part.now.items }
    ensures { OnOk result (out.new
        ≡ out.old ++ text_of (sector_line number (take_off_index sector.now part.now.items) ∷ [])) }
{
    let (take_off, _) = outcome(sector, part);
    out.text(b"sector ")?;
    out.count(u64::from(number))?;
    out.text(b" ")?;
    out.index(take_off)?;
    out.end_line()
}

/// Appends `sector NUMBER INDEX` for each sector after the first one. `last` is the last sector of each container, in
/// branch order.
fn push_sector_lines(
    out: &mut Builder,
    sectors: &[Task],
    last: &[u8],
    path: &[u8],
) -> Result<(), NoMemory>
    requires sectors { length sectors.now ≤ 3 }
    requires path { length path.now ≤ 60 }
    requires sound { OnSectors IsSound sectors.now last.now path.now }
    ensures { OnOk result (out.new
        ≡ out.old ++ text_of (sector_lines last.now path.now 2 (drop 1 sectors.now))) }
{
    for place in 1..sectors.len() {
        let number = place as u8 + 1;
        push_sector_line(out, number, &sectors[place], &part_of(last, number, path))?;
    }
    Ok(())
}

/// The plan of a path that is admissible over all sectors.
fn plan_of(alloc: Global, t: &StopTask, path: &Path) -> Result<Vec<u8>, NoMemory>
    requires { IsStopAdmissible t.now path.now.items }
    ensures { IfOk result (λ text.
        text.items ≡ text_of (stop_plan_lines t.now.sectors t.now.leaves path.now.items)) }
{
    let first = t.first();
    let last = t.last_sectors();
    let mut out = Builder::new(alloc);
    out.text(b"PLAN\n")?;
    push_place_lines(&mut out, first, path.as_slice())?;
    push_balance(&mut out, first, path)?;
    push_sector_lines(&mut out, t.sectors(), last.as_slice(), path.as_slice())?;
    out.text(b"END\n")?;
    Ok(out.finish())
}

/// The text of the answer that nothing fits.
fn write_none(alloc: Global) -> Result<Vec<u8>, NoMemory>
    ensures { IfOk result (λ text. text.items ≡ one_line (codes "NONE" ∷ [])) }
{
    let mut out = Builder::new(alloc);
    out.text(b"NONE\n")?;
    Ok(out.finish())
}

/// The text of an answer to the load: the plan with the take-off index of each later sector, `NONE`, or `BUDGET` with
/// the budget.
pub fn write_stop_answer(
    alloc: Global,
    t: &StopTask,
    answer: &StopAnswer,
) -> Result<Vec<u8>, NoMemory>
    requires { IfBest answer.now (IsStopAdmissible t.now) }
    ensures { IfOk result (λ text. text.items ≡ stop_answer_text t.now answer.now) }
{
    match answer {
        StopAnswer::Best(path) => plan_of(alloc, t, path),
        StopAnswer::NoneFits => write_none(alloc),
        StopAnswer::Budget(budget) => write_budget(alloc, *budget),
    }
}
