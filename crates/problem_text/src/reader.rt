ghost use Rattle.std.specs.Prelude.{◌≡◌, All, IfOk, IfErr, MatchResult, Some, None};
ghost use Rattle.hold_limits.specs.Layout.{layout_under};
ghost use Rattle.hold_limits.specs.Problem.{Problem};
ghost use Rattle.hold_limits.specs.Faults.{IsLawful, IsWellSpelled, hold_fault, task_fault};
ghost use Rattle.problem_text.specs.TaskText.{IsSpelledPosition, Spells};
ghost use Rattle.text_lines.specs.Lines.{text_of};
ghost use Rattle.problem_text.specs.Grammar.{AreLimits, AreLateral, AreLast};
ghost use Rattle.text_lines.specs.Grammar.{Fails};
ghost use Rattle.problem_text.specs.Refusals.{IsRefused};
ghost use Rattle.problem_text.specs.PositionNumbers.{keep_problem};
ghost use Rattle.problem_text.specs.Parts.{AreSections, IsLateral, AreIndices, last_lines, problem_of_parts};
ghost use Rattle.problem_text.specs.Reading.{text_fault, IsFaultOf};

use crate::fault::TextFault;
use crate::line_kinds::{
    CombinedLines, CumulativeLines, ExcludeLines, ItemLines, LooseLines, PositionLines, SideLines,
};
use crate::parts::{Parts, Sections, Version};
use crate::single_lines::next_version;
use hold_limits::{Combined, Cumulative, Hold, HoldFault, Lateral, Position, Sides, Task};
use hold_parts::Indices;
use mass_units::Band;
use std::alloc::Global;
use text_lines::{
    IndexWord, Last, LineFault, Lines, MassWord, Names, Then, expect_last, next_fields,
    read_section,
};

/// Reads the task that the text spells. Each line ends with one LF, and its words are separated by one space.
///
/// A text that spells no task is refused with the number of its first wrong line, or for its early end. One that
/// spells a task which is not lawful is refused with the fault of the hold, or else with that of the task. Each text
/// has exactly one answer, as [`reading_laws`](crate::reading_laws) says. The time is linear in the length of the
/// text, with a factor for each name that is logarithmic in the number of positions.
pub fn read_task(alloc: Global, text: &[u8]) -> Result<Task, TextFault>
    ensures read { IfOk result (λ task. Spells text.now task × IsLawful task) }
    ensures refused { IfErr result (IsRefused text.now) }
    ensures complete { (t : Problem) → Spells text.now t → hold_fault t.hold ≡ None → task_fault t ≡ None
        → MatchResult result (λ task. task ≡ t) (λ fault. fault ≡ TextFault.NoMemory) }
{
    task_of(read_parts(alloc, text)?)
}

/// The parts that the lines of the text spell.
fn read_parts(alloc: Global, text: &[u8]) -> Result<Parts, LineFault>
    ensures read { IfOk result (λ parts. (t : Problem) × Spells text.now t
        × (problem_of_parts parts ≡ keep_problem t)) }
    ensures refused { IfErr result (λ fault. IsRefused text.now (text_fault fault)) }
{
    let mut lines = Lines::new(text);
    let version = next_version(&mut lines)?;
    let positions = read_section(alloc, &PositionLines, &mut lines)?;
    let sections = read_sections(alloc, version, &positions, &mut lines)?;
    let indices = read_indices(&mut lines)?;
    Ok(Parts {
        positions,
        sections,
        indices,
    })
}

/// What the lines after those of the positions say, up to those of the indices.
fn read_sections(
    alloc: Global,
    version: Version,
    positions: &[Position],
    lines: &mut Lines<'_>,
) -> Result<Sections, LineFault>
    requires spelled { All IsSpelledPosition positions.now }
    ensures read { IfOk result (AreSections version positions.now lines.old lines.new) }
    ensures refused { IfErr result (Fails (AreLimits version positions.now) lines.old.rest.now lines.old.number) }
{
    let names = Names::new(alloc, positions)?;
    read_named(alloc, version, &names, lines)
}

/// The same, with the positions by their names.
fn read_named(
    alloc: Global,
    version: Version,
    names: &Names<'_>,
    lines: &mut Lines<'_>,
) -> Result<Sections, LineFault>
    requires spelled { All IsSpelledPosition names.now.positions.now }
    ensures read { IfOk result (AreSections version names.now.positions.now lines.old lines.new) }
    ensures refused { IfErr result (Fails (AreLimits version names.now.positions.now) lines.old.rest.now lines.old.number) }
{
    let excludes = read_section(alloc, &ExcludeLines(names), lines)?;
    let combined = read_section(alloc, &CombinedLines(names), lines)?;
    let cumulative = read_section(alloc, &CumulativeLines(names), lines)?;
    let lateral = read_lateral(alloc, version, names, lines)?;
    let items = read_section(alloc, &ItemLines, lines)?;
    let loose = read_section(alloc, &LooseLines(names), lines)?;
    Ok(Sections {
        excludes,
        combined,
        cumulative,
        lateral,
        items,
        loose,
    })
}

/// The lateral limit, which a text of the second version has.
fn read_lateral(
    alloc: Global,
    version: Version,
    names: &Names<'_>,
    lines: &mut Lines<'_>,
) -> Result<Option<Lateral>, LineFault>
    requires spelled { All IsSpelledPosition names.now.positions.now }
    ensures read { IfOk result (IsLateral names.now.positions.now lines.old lines.new version) }
    ensures refused { IfErr result (Fails (AreLateral version names.now.positions.now) lines.old.rest.now lines.old.number) }
{
    match version {
        Version::One => Ok(None),
        Version::Two => {
            let sides = read_section(alloc, &SideLines(names), lines)?;
            let most = next_fields(b"lateral ", &Last(MassWord), lines)?;
            Ok(Some(Lateral {
                most,
                sides: Sides::from(sides),
            }))
        }
    }
}

/// The indices, which the last lines of a text say. Nothing follows these lines.
fn read_indices(lines: &mut Lines<'_>) -> Result<Indices, LineFault>
    ensures read { IfOk result (λ indices. AreIndices indices × (lines.old.rest.now ≡ text_of (last_lines indices))) }
    ensures refused { IfErr result (Fails AreLast lines.old.rest.now lines.old.number) }
{
    let base = next_fields(b"base ", &Last(IndexWord), lines)?;
    let window = next_fields(b"window ", &Then(IndexWord, Last(IndexWord)), lines)?;
    let ideal = next_fields(b"ideal ", &Then(IndexWord, Last(IndexWord)), lines)?;
    expect_last(b"END", lines)?;
    Ok(Indices {
        base,
        window: Band {
            low: window.0,
            high: window.1,
        },
        ideal: Band {
            low: ideal.0,
            high: ideal.1,
        },
    })
}

/// The task with these parts, or the first fault of its hold, or else of the task.
fn task_of(parts: Parts) -> Result<Task, TextFault>
    requires { IsWellSpelled (problem_of_parts parts).hold }
    ensures made { IfOk result (λ task. (task ≡ problem_of_parts parts) × IsLawful task) }
    ensures refused { IfErr result (IsFaultOf (problem_of_parts parts)) }
{
    let Parts {
        positions,
        sections,
        indices,
    } = parts;
    let Sections {
        excludes,
        combined,
        cumulative,
        lateral,
        items,
        loose,
    } = sections;
    let hold = hold_of(positions, excludes, combined, cumulative, lateral).map_err(
        TextFault::Hold,
    )?;
    Task::new(
        hold,
        items,
        loose,
        indices.base,
        indices.window.low,
        indices.window.high,
        indices.ideal.low,
        indices.ideal.high,
    )
    .map_err(TextFault::Task)
}

/// The hold with these positions, and with these limits of its sections.
fn hold_of(
    positions: Vec<Position>,
    excludes: Vec<(u8, u8)>,
    combined: Vec<Combined>,
    cumulative: Vec<Cumulative>,
    lateral: Option<Lateral>,
) -> Result<Hold, HoldFault>
    requires { IsWellSpelled (layout_under lateral positions.items excludes.items combined.items cumulative.items) }
    ensures made { IfOk result (λ hold.
        hold ≡ layout_under lateral positions.items excludes.items combined.items cumulative.items) }
    ensures lawful { IfOk result (λ hold. hold_fault hold ≡ None) }
    ensures refused { IfErr result (λ fault.
        hold_fault (layout_under lateral positions.items excludes.items combined.items cumulative.items) ≡ Some fault) }
{
    let hold = Hold::new(positions, excludes, combined, cumulative)?;
    match lateral {
        Some(lateral) => hold.with_lateral(lateral),
        None => Ok(hold),
    }
}
