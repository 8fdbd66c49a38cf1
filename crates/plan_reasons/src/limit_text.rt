//! A limit as the text of its task has it.

ghost use Rattle.std.specs.Prelude.{◌≡◌, ◌++◌, ◌∷◌, [], slice_get, OnOk};
ghost use Rattle.std.specs.Option.{option_map_or};
ghost use Rattle.mass_units.specs.Spelling.{number_text};
ghost use Rattle.plan_reasons.specs.WhyText.{limit_text};
ghost use Rattle.problem_text.specs.TaskText.{end_word, exclude_line, combined_line, cumulative_line};

use crate::limit::{TaskLimit, lateral_most};
use base_words::NoMemory;
use hold_limits::{Combined, Cumulative, Hold, Task};
use mass_units::Kg;
use telex::Builder;
use text_lines::{NamesOf, write_run};

/// Appends `exclude NAME NAME`.
fn push_exclude(out: &mut Builder, hold: &Hold, pair: (u8, u8)) -> Result<(), NoMemory>
    ensures { OnOk result (out.new ≡ out.old ++ exclude_line hold.now.positions pair) }
{
    out.text(b"exclude")?;
    out.word(hold.name_at(pair.0))?;
    out.word(hold.name_at(pair.1))
}

/// The excluding pair at this place, where there is one.
fn pair_at(hold: &Hold, at: usize) -> Option<(u8, u8)>
    ensures { result ≡ slice_get hold.now.excludes at }
{
    hold.excludes().get(at).copied()
}

/// Appends the excluding pair at this place, where there is one.
fn push_exclude_at(out: &mut Builder, hold: &Hold, at: usize) -> Result<(), NoMemory>
    ensures { OnOk result (out.new ≡ out.old ++ option_map_or (exclude_line hold.now.positions) (slice_get hold.now.excludes at) []) }
{
    match pair_at(hold, at) {
        Some(pair) => push_exclude(out, hold, pair),
        None => Ok(()),
    }
}

/// Appends `combined MOST NAME NAME ..`.
fn push_combined(out: &mut Builder, hold: &Hold, limit: &Combined) -> Result<(), NoMemory>
    ensures { OnOk result (out.new ≡ out.old ++ combined_line hold.now.positions limit.now) }
{
    out.text(b"combined")?;
    push_mass(out, limit.most)?;
    write_run(&NamesOf(hold), limit.places.as_slice(), out)
}

/// Appends the combined limit at this place, where there is one.
fn push_combined_at(out: &mut Builder, hold: &Hold, at: usize) -> Result<(), NoMemory>
    ensures { OnOk result (out.new ≡ out.old ++ option_map_or (combined_line hold.now.positions) (slice_get hold.now.combined at) []) }
{
    match hold.combined().get(at) {
        Some(limit) => push_combined(out, hold, limit),
        None => Ok(()),
    }
}

/// Appends a mass after a space.
fn push_mass(out: &mut Builder, mass: Kg) -> Result<(), NoMemory>
    ensures { OnOk result (out.new ≡ out.old ++ 32 ∷ number_text mass.0) }
{
    out.text(b" ")?;
    out.mass(mass)
}

/// The word for the end of the hold up to which a cumulative limit counts.
fn word_of_end(forward: bool) -> &'static [u8]
    ensures { result.now ≡ end_word forward }
{
    if forward { b"forward" } else { b"aft" }
}

/// Appends `cumulative forward NAME MOST` or `cumulative aft NAME MOST`.
fn push_cumulative(out: &mut Builder, hold: &Hold, limit: &Cumulative) -> Result<(), NoMemory>
    ensures { OnOk result (out.new ≡ out.old ++ cumulative_line hold.now.positions limit.now) }
{
    out.text(b"cumulative")?;
    out.word(word_of_end(limit.forward))?;
    out.word(hold.name_at(limit.place))?;
    push_mass(out, limit.most)
}

/// Appends the cumulative limit at this place, where there is one.
fn push_cumulative_at(out: &mut Builder, hold: &Hold, at: usize) -> Result<(), NoMemory>
    ensures { OnOk result (out.new ≡ out.old ++ option_map_or (cumulative_line hold.now.positions) (slice_get hold.now.cumulative at) []) }
{
    match hold.cumulative().get(at) {
        Some(limit) => push_cumulative(out, hold, limit),
        None => Ok(()),
    }
}

/// Appends `lateral MOST`.
fn push_lateral(out: &mut Builder, task: &Task) -> Result<(), NoMemory>
    ensures { OnOk result (out.new ≡ out.old ++ limit_text task.now TaskLimit.Lateral) }
{
    out.text(b"lateral")?;
    push_mass(out, Kg(lateral_most(task)))
}

/// Appends the limit as the text of the task has it.
pub fn push_limit(out: &mut Builder, task: &Task, limit: TaskLimit) -> Result<(), NoMemory>
    ensures { OnOk result (out.new ≡ out.old ++ limit_text task.now limit) }
{
    match limit {
        TaskLimit::Exclude(at) => push_exclude_at(out, task.hold(), at),
        TaskLimit::Combined(at) => push_combined_at(out, task.hold(), at),
        TaskLimit::Cumulative(at) => push_cumulative_at(out, task.hold(), at),
        TaskLimit::Lateral => push_lateral(out, task),
        TaskLimit::WindowLow => out.text(b"window low"),
        TaskLimit::WindowHigh => out.text(b"window high"),
    }
}
