//! The lines of a plan.

ghost use Rattle.std.specs.Prelude.{◌≡◌, ◌++◌, ◌∷◌, [], ◌<◌, ◌≤◌, ◌^◌, pos, unsigned_abs, length, codes, OnOk};
ghost use Rattle.mass_units.specs.Spelling.{signed_text, index_text};
ghost use Rattle.hold_limits.specs.Placement.{IsSound, placed};
ghost use Rattle.text_lines.specs.Lines.{text_of};
ghost use Rattle.plan_text.specs.PlanText.{one_line, place_lines, balance_lines, difference_lines, plan_text};

use base_words::NoMemory;
use hold_limits::{Path, Task, lateral_of, outcome};
use mass_units::Ticks;
use telex::Builder;

/// Appends `WORD INDEX`.
fn push_index_line(out: &mut Builder, word: &[u8], index: Ticks) -> Result<(), NoMemory>
    ensures { OnOk result (out.new
        ≡ out.old ++ one_line (word.now ∷ index_text index.0 ∷ [])) }
{
    out.text(word)?;
    out.text(b" ")?;
    out.index(index)?;
    out.end_line()
}

/// Appends `place ID NAME`.
fn push_place_line(out: &mut Builder, id: &[u8], name: &[u8]) -> Result<(), NoMemory>
    ensures { OnOk result (out.new
        ≡ out.old ++ one_line (codes "place" ∷ id.now ∷ name.now ∷ [])) }
{
    out.text(b"place")?;
    out.word(id)?;
    out.word(name)?;
    out.end_line()
}

/// Appends `place ID NAME` for each container of the path, in branch order.
pub fn push_place_lines(out: &mut Builder, task: &Task, path: &[u8]) -> Result<(), NoMemory>
    requires { length path.now ≤ length task.now.items }
    ensures { OnOk result (out.new
        ≡ out.old ++ text_of (place_lines task.now (placed task.now path.now))) }
{
    for rank in 0..path.len() {
        let item = task.at_rank(rank);
        push_place_line(out, item.id.bytes(), task.hold().name_at(path[rank]))?;
    }
    Ok(())
}

/// A distance as a number of ticks.
fn ticks_of(distance: u64) -> Ticks
    requires { distance < 2 ^ 63 }
    ensures { result.0 ≡ pos distance }
{
    Ticks(distance as i64)
}

/// Appends `WORD KILOGRAMS`.
fn push_mass_line(out: &mut Builder, word: &[u8], kilograms: i32) -> Result<(), NoMemory>
    ensures { OnOk result (out.new
        ≡ out.old ++ one_line (word.now ∷ signed_text kilograms ∷ [])) }
{
    out.text(word)?;
    out.text(b" ")?;
    out.number(i64::from(kilograms))?;
    out.end_line()
}

/// A lateral difference, in kilograms, as a number of 32 bits.
fn kilograms_of(difference: i64) -> i32
    requires { unsigned_abs difference < 2 ^ 31 }
    ensures { result ≡ difference }
{
    difference as i32
}

/// Appends `lateral DIFFERENCE`, where the hold has a lateral limit.
fn push_difference(out: &mut Builder, task: &Task, path: &Path) -> Result<(), NoMemory>
    requires { IsSound task.now path.now.items }
    ensures { OnOk result (out.new
        ≡ out.old ++ text_of (difference_lines task.now path.now.items)) }
{
    if task.hold().lateral().is_some() {
        push_mass_line(out, b"lateral", kilograms_of(lateral_of(task, path)))?;
    }
    Ok(())
}

/// Appends the take-off index of a sound path, and its distance from the ideal index.
pub fn push_balance(out: &mut Builder, task: &Task, path: &Path) -> Result<(), NoMemory>
    requires { IsSound task.now path.now.items }
    ensures { OnOk result (out.new
        ≡ out.old ++ text_of (balance_lines task.now path.now.items)) }
{
    let (take_off, distance) = outcome(task, path);
    push_index_line(out, b"index", take_off)?;
    push_index_line(out, b"distance", ticks_of(distance))?;
    Ok(())
}

/// Appends the plan of a sound path: a line for each container in branch order, the take-off index, its distance from the
/// ideal index, and the lateral difference where the hold limits it.
pub fn push_plan(out: &mut Builder, task: &Task, path: &Path) -> Result<(), NoMemory>
    requires { IsSound task.now path.now.items }
    ensures { OnOk result (out.new ≡ out.old ++ plan_text task.now path.now.items) }
{
    out.text(b"PLAN\n")?;
    push_place_lines(out, task, path.as_slice())?;
    push_balance(out, task, path)?;
    push_difference(out, task, path)?;
    Ok(())
}
