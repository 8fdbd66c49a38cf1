//! The text of the next task, cut out at its last line.

ghost use Rattle.std.specs.Prelude.{◌≡◌, ◌≢◌, [], ◌+◌, ◌-◌, ◌<◌, ◌≤◌, ◌^◌, ℕ, List, Option, length, IfOk, IfErr, IsTrue, ◌↔◌, codes};
ghost use Rattle.hold_limits.specs.Problem.{Problem};
ghost use Rattle.text_lines.specs.Grammar.{Fails};
ghost use Rattle.text_lines.specs.Lines.{text_of};
ghost use Rattle.problem_text.specs.Refusals.{AreTask};
ghost use Rattle.problem_text.specs.TaskText.{IsSpelled};
ghost use Rattle.problem_text.specs.declared.fault.TextFault.TheVariants.{Line as line_of_text};
ghost use Rattle.stop_text.specs.StopFile.{third_lines};
ghost use Rattle.stop_text.specs.Reading.{IsPast, IsSlice, told, IsTaskBetween, HasNoTask, IsLastTask};

use crate::parts::Sector;
use problem_text::{TextFault, read_task};
use std::alloc::Global;
use text_lines::{LineFault, Lines};

/// Whether the line is the last one of a task.
fn is_end(line: &[u8]) -> bool
    ensures { IsTrue result ↔ (line.now ≡ codes "END") }
{
    line == b"END".as_slice()
}

/// Consumes the lines up to the first line `END` and that line, or all lines where there is none. Whether there is one.
fn skip_task(lines: &mut Lines<'_>) -> bool
    ensures { IsPast result lines.old.rest.now lines.old.number lines.new.rest.now lines.new.number }
{
    while let Some((line, after)) = lines.split_first() {
        *lines = after;
        if is_end(line) {
            return true;
        }
    }
    false
}

/// The text up to the end of the next line `END`, or all that is left where there is none. It is consumed.
fn next_slice<'a>(lines: &mut Lines<'a>) -> &'a [u8]
    ensures { IsSlice lines.old.rest.now lines.old.number result.now lines.new.rest.now lines.new.number }
{
    let text = lines.rest;
    if !skip_task(lines) {
        return text;
    }
    &text[..text.len() - lines.rest.len()]
}

/// What the fault of a task's text says of a text that goes on with it at the line with this number.
fn told(number: usize, fault: TextFault) -> Result<Sector, LineFault>
    requires { (n : ℕ) → fault ≡ line_of_text n → (1 ≤ n) × (number + n < 2 ^ 64) }
    ensures { result ≡ told number fault }
{
    match fault {
        TextFault::Line(n) => Err(LineFault::Line(number + (n - 1))),
        TextFault::NoEnd => Err(LineFault::NoEnd),
        TextFault::NoMemory => Err(LineFault::NoMemory),
        TextFault::Hold(_) | TextFault::Task(_) => Ok(Sector::Faulty(fault)),
    }
}

/// The task that the next lines spell.
pub fn next_task(alloc: Global, lines: &mut Lines<'_>) -> Result<Sector, LineFault>
    ensures read { IfOk result (IsTaskBetween lines.old.rest.now lines.old.number lines.new.rest.now lines.new.number) }
    ensures refused { IfErr result (HasNoTask lines.old.rest.now lines.old.number) }
{
    let number = lines.number;
    match read_task(alloc, next_slice(lines)) {
        Ok(task) => Ok(Sector::Lawful(task)),
        Err(fault) => told(number, fault),
    }
}

/// The task that the last lines spell, if there are any.
pub fn last_task(alloc: Global, lines: &mut Lines<'_>) -> Result<Option<Sector>, LineFault>
    ensures read { IfOk result (IsLastTask lines.old.rest.now) }
    ensures refused { IfErr result (Fails AreTask lines.old.rest.now lines.old.number) }
    ensures some { IfErr result (λ fault. lines.old.rest.now ≢ []) }
{
    if lines.rest.is_empty() {
        return Ok(None);
    }
    let third = next_task(alloc, lines)?;
    if !lines.rest.is_empty() {
        return Err(LineFault::Line(lines.number));
    }
    Ok(Some(third))
}
