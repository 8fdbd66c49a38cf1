//! The reader of a section: a run of lines of one kind.

ghost use Rattle.std.specs.Prelude.{IfOk};

use crate::lines::Lines;
use base_words::NoMemory;
use std::alloc::Global;

/// A kind of line that a task may have any number of, in a row.
pub trait LineReader {
    ghost use Rattle.std.specs.Prelude.{◌≢◌, ℕ, List, IfOk, IfSome, IfNone};
    ghost use Rattle.text_lines.specs.Sections.{Says};

    /// What such a line says.
    type Entry: Drop;

    ghost text: { Self → Self.Entry → List ℕ };

    ghost spelled: { Self → Self.Entry → Type 0 };

    ghost keep: { Self → Self.Entry → Self.Entry };

    /// What the line says. None exactly where the line is not of this kind.
    fn read(&self, alloc: Global, line: &[u8]) -> Result<Option<Self::Entry>, NoMemory>
        ensures found { IfOk result (λ r. IfSome r (λ got.
            Says (text self.now) (spelled self.now) (keep self.now) line.now got)) }
        ensures none { IfOk result (λ r. IfNone r ((x : Self.Entry) → spelled self.now x → line.now ≢ text self.now x)) };
}

ghost use Rattle.text_lines.specs.Sections.{IsSection};

/// What the lines before the first of another kind say. They are consumed.
pub fn read_section<R: LineReader>(
    alloc: Global,
    reader: &R,
    lines: &mut Lines<'_>,
) -> Result<Vec<R::Entry>, NoMemory>
    ensures { IfOk result (λ got. IsSection (R.text reader.now) (R.spelled reader.now) (R.keep reader.now)
        lines.old.rest.now lines.new.rest.now lines.old.number lines.new.number got.items) }
{
    let mut entries = Vec::new(alloc);
    while let Some((line, after)) = lines.split_first() {
        let Some(entry) = reader.read(alloc, line)? else {
            return Ok(entries);
        };
        entries.push(entry)?;
        *lines = after;
    }
    Ok(entries)
}
