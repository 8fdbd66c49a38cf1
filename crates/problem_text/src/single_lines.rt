//! Readers of the lines that a task has once. Each consumes its line.

ghost use Rattle.std.specs.Prelude.{◌≡◌, ◌+◌, ◌∷◌, ◌++◌, OnOk, IfOk, IfErr};
ghost use Rattle.problem_text.specs.Grammar.{version_line};
ghost use Rattle.problem_text.specs.Reading.{IsVersionLine};
ghost use Rattle.text_lines.specs.Lines.{IsStopped};

use crate::line_readers::read_version;
use crate::parts::Version;
use text_lines::{LineFault, Lines};

/// The form of a text, which its first line says.
pub fn next_version(lines: &mut Lines<'_>) -> Result<Version, LineFault>
    ensures read { IfOk result (λ version. lines.old.rest.now ≡ version_line version ++ 10 ∷ lines.new.rest.now) }
    ensures counted { OnOk result (lines.new.number ≡ lines.old.number + 1) }
    ensures refused { IfErr result (IsStopped lines.old.rest.now lines.old.number IsVersionLine) }
{
    let number = lines.number;
    read_version(lines.next_line()?).ok_or(LineFault::Line(number))
}
