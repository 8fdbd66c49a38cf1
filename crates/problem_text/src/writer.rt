//! The writer of a task's text.

ghost use Rattle.std.specs.Prelude.{◌≡◌, ◌∷◌, [], ◌++◌, IfOk, OnOk};
ghost use Rattle.problem_text.specs.TaskText.{header_line, lateral_lines, base_line, window_line, ideal_line, Spells};
ghost use Rattle.text_lines.specs.Lines.{text_of};

use crate::line_writers::{
    AllCombined, AllCumulative, AllLoose, Excludes, Items, Positions, Sides, push_band_line,
    push_index_line, push_lateral_most,
};
use base_words::NoMemory;
use hold_limits::{Hold, Task};
use std::alloc::Global;
use telex::Builder;
use text_lines::write_lines;

/// Appends the lines of the lateral limit, where the hold has one.
fn push_lateral(out: &mut Builder, hold: &Hold) -> Result<(), NoMemory>
    ensures { OnOk result (out.new
        ≡ out.old ++ text_of (lateral_lines hold.now.positions hold.now.lateral)) }
{
    let Some(lateral) = hold.lateral() else {
        return Ok(());
    };
    write_lines(&Sides(hold), lateral.sides.as_slice(), out)?;
    push_lateral_most(out, lateral.most)?;
    Ok(())
}

/// The first line of the text of a task over the hold.
fn header(hold: &Hold) -> &'static [u8]
    ensures { result.now ≡ header_line hold.now.lateral ++ 10 ∷ [] }
{
    match hold.lateral() {
        None => b"TASK 1\n",
        Some(_) => b"TASK 2\n",
    }
}

/// Appends the three lines of the indices.
fn push_indices(out: &mut Builder, task: &Task) -> Result<(), NoMemory>
    ensures { OnOk result (out.new ≡ out.old ++ text_of (base_line task.now.base
        ∷ window_line task.now.low task.now.high ∷ ideal_line task.now.ideal_low task.now.ideal_high ∷ [])) }
{
    push_index_line(out, b"base", task.base())?;
    push_band_line(out, b"window", task.low(), task.high())?;
    push_band_line(out, b"ideal", task.ideal_low(), task.ideal_high())
}

/// Writes the one text of the task. Read back, it is the same task.
pub fn write_task(alloc: Global, task: &Task) -> Result<Vec<u8>, NoMemory>
    ensures { IfOk result (λ text. Spells text.items task.now) }
{
    let hold = task.hold();
    let mut out = Builder::new(alloc);
    out.text(header(hold))?;
    write_lines(&Positions, hold.positions(), &mut out)?;
    write_lines(&Excludes(hold), hold.excludes(), &mut out)?;
    write_lines(&AllCombined(hold), hold.combined(), &mut out)?;
    write_lines(&AllCumulative(hold), hold.cumulative(), &mut out)?;
    push_lateral(&mut out, hold)?;
    write_lines(&Items, task.items(), &mut out)?;
    write_lines(&AllLoose(hold), task.loose(), &mut out)?;
    push_indices(&mut out, task)?;
    out.text(b"END\n")?;
    Ok(out.finish())
}
