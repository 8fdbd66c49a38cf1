//! The lines of late changes.

ghost use Rattle.std.specs.Prelude.{IfOk};
ghost use Rattle.flight_state.specs.declared.state.Stage.TheVariants.{Released};
ghost use Rattle.flight_row.specs.RowText.{change_line};
ghost use Rattle.flight_row.specs.Spelled.{IsSpelledChange, AreSpelledChanges};
ghost use Rattle.text_lines.specs.Sections.{ArePart};

use crate::section_lines::read_change;
use base_words::NoMemory;
use flight_state::{Lmcs, Stage, can_add, with_change};
use std::alloc::Global;
use text_lines::Lines;
use trim::Figures;

/// The late changes on the next lines, as far as each can be made to the figures with those before it. Only a released
/// or a departed flight has any.
pub fn read_changes(
    alloc: Global,
    base: &Figures,
    stage: Stage,
    lines: &mut Lines<'_>,
) -> Result<Lmcs, NoMemory>
    ensures { IfOk result (ArePart change_line IsSpelledChange (AreSpelledChanges base.now stage)
        lines.old.rest.now lines.new.rest.now lines.old.number lines.new.number) }
{
    match stage {
        Stage::Working | Stage::Planned => Ok(Lmcs::new(alloc)),
        Stage::Released | Stage::Departed => read_made(alloc, base, lines),
    }
}

/// The late changes on the next lines, as far as each can be made to the figures with those before it.
fn read_made(alloc: Global, base: &Figures, lines: &mut Lines<'_>) -> Result<Lmcs, NoMemory>
    ensures { IfOk result (ArePart change_line IsSpelledChange (AreSpelledChanges base.now Released)
        lines.old.rest.now lines.new.rest.now lines.old.number lines.new.number) }
{
    let mut figures = base.clone()?;
    let mut changes = Lmcs::new(alloc);
    while !changes.is_full() {
        let Some((line, after)) = lines.split_first() else {
            return Ok(changes);
        };
        let Some(change) = read_change(line) else {
            return Ok(changes);
        };
        if !can_add(&figures, &change) {
            return Ok(changes);
        }
        figures = with_change(alloc, figures, &change)?;
        changes.push(change)?;
        *lines = after;
    }
    Ok(changes)
}
