//! The lines of a text, one after another.

ghost use Rattle.std.specs.Prelude.{◌≡◌, ◌+◌, ◌<◌, ◌^◌, [], ◌∷◌, ◌++◌, length, IfSome, IfNone, IfOk, IfErr, OnOk};
ghost use Rattle.text_lines.specs.Lines.{IsStopped};
ghost use Rattle.text_lines.specs.Cuts.{Avoids};
ghost use Rattle.text_lines.specs.Grammar.{Fails, IsOnly};

use crate::cuts::split_once;
use crate::fault::LineFault;

/// The lines that are still to be read. A last piece without an LF is not a line.
#[derive(Clone, Copy)]
pub struct Lines<'a> {
    pub rest: &'a [u8],
    /// The number of the next line.
    pub number: usize,
    ghost counted: { number + length rest.now < 2 ^ 64 },
}

impl<'a> Lines<'a> {
    /// The lines of the text.
    pub fn new(text: &'a [u8]) -> Lines<'a>
        ensures whole { result.rest.now ≡ text.now }
        ensures first { result.number ≡ 1 }
    {
        Lines {
            rest: text,
            number: 1,
        }
    }

    /// The next line, and the lines after it.
    pub fn split_first(&self) -> Option<(&'a [u8], Lines<'a>)>
        ensures found { IfSome result (λ x. (self.now.rest.now ≡ x.0.now ++ 10 ∷ x.1.rest.now)
            × Avoids 10 x.0.now) }
        ensures counted { IfSome result (λ x. x.1.number ≡ self.now.number + 1) }
        ensures none { IfNone result (Avoids 10 self.now.rest.now) }
    {
        let (line, rest) = split_once(b'\n', self.rest)?;
        let number = self.number + 1;
        Some((line, Lines { rest, number }))
    }

    /// Consumes the next line. Fails where the text stops before the end of that line.
    pub fn next_line(&mut self) -> Result<&'a [u8], LineFault>
        ensures found { IfOk result (λ line.
            (self.old.rest.now ≡ line.now ++ 10 ∷ self.new.rest.now) × Avoids 10 line.now) }
        ensures counted { IfOk result (λ line. self.new.number ≡ self.old.number + 1) }
        ensures none { IfErr result (λ fault. (fault ≡ LineFault.NoEnd) × Avoids 10 self.old.rest.now) }
    {
        let Some((line, after)) = self.split_first() else {
            return Err(LineFault::NoEnd);
        };
        *self = after;
        Ok(line)
    }
}

/// Consumes the line with this text.
pub fn expect_line(expected: &[u8], lines: &mut Lines<'_>) -> Result<(), LineFault>
    ensures read { OnOk result (lines.old.rest.now ≡ expected.now ++ 10 ∷ lines.new.rest.now) }
    ensures counted { OnOk result (lines.new.number ≡ lines.old.number + 1) }
    ensures refused { IfErr result (IsStopped lines.old.rest.now lines.old.number
        (λ line. line ≡ expected.now)) }
{
    let number = lines.number;
    if lines.next_line()? != expected {
        return Err(LineFault::Line(number));
    }
    Ok(())
}

/// Consumes the line with this text, which nothing follows.
pub fn expect_last(expected: &[u8], lines: &mut Lines<'_>) -> Result<(), LineFault>
    ensures read { OnOk result (lines.old.rest.now ≡ expected.now ++ 10 ∷ []) }
    ensures refused { IfErr result (Fails (IsOnly expected.now) lines.old.rest.now lines.old.number) }
{
    expect_line(expected, lines)?;
    if !lines.rest.is_empty() {
        return Err(LineFault::Line(lines.number));
    }
    Ok(())
}
