//! The next line of one kind, and a limited number of lines of one kind.

ghost use Rattle.std.specs.Prelude.{◌≡◌, ◌+◌, ◌≤◌, ◌⊎◌, ◌∷◌, ◌++◌, List, length, IfOk, IfErr};
ghost use Rattle.text_lines.specs.Lines.{IsStopped};
ghost use Rattle.text_lines.specs.Sections.{ArePart, IsOfKind};

use crate::fault::LineFault;
use crate::lines::Lines;
use crate::sections::LineReader;
use base_words::NoMemory;
use std::alloc::Global;

/// What the next line says. Fails where it is not of this kind.
pub fn next_said<R: LineReader>(
    alloc: Global,
    reader: &R,
    lines: &mut Lines<'_>,
) -> Result<R::Entry, LineFault>
    requires whole { (x : R.Entry) → R.keep reader.now x ≡ x }
    ensures read { IfOk result (λ got. R.spelled reader.now got
        × (lines.old.rest.now ≡ R.text reader.now got ++ 10 ∷ lines.new.rest.now)) }
    ensures counted { IfOk result (λ _. lines.new.number ≡ lines.old.number + 1) }
    ensures refused { IfErr result (λ fault. (fault ≡ LineFault.NoMemory)
        ⊎ IsStopped lines.old.rest.now lines.old.number (IsOfKind (R.text reader.now) (R.spelled reader.now)) fault) }
{
    let number = lines.number;
    let line = lines.next_line()?;
    match reader.read(alloc, line)? {
        Some(said) => Ok(said),
        None => Err(LineFault::Line(number)),
    }
}

/// What the next lines of this kind say, up to the most.
pub fn read_up_to<R: LineReader>(
    alloc: Global,
    most: usize,
    reader: &R,
    lines: &mut Lines<'_>,
) -> Result<Vec<R::Entry>, NoMemory>
    requires whole { (x : R.Entry) → R.keep reader.now x ≡ x }
    ensures { IfOk result (λ got. ArePart (R.text reader.now) (R.spelled reader.now) (λ (xs : List R.Entry). length xs ≤ most)
        lines.old.rest.now lines.new.rest.now lines.old.number lines.new.number got.items) }
{
    let mut entries = Vec::new(alloc);
    while entries.len() < most {
        let Some((line, after)) = lines.split_first() else {
            return Ok(entries);
        };
        let Some(entry) = reader.read(alloc, line)? else {
            return Ok(entries);
        };
        entries.push(entry)?;
        *lines = after;
    }
    Ok(entries)
}
