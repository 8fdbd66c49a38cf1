//! Writers of runs of words and of lines.

ghost use Rattle.std.specs.Prelude.{◌≡◌, ◌++◌, map, All, OnOk};
ghost use Rattle.text_lines.specs.Lines.{text_of};
ghost use Rattle.text_lines.specs.WordRuns.{run_text};

use base_words::NoMemory;
use hold_limits::Hold;
use telex::Builder;

/// Writes the entries of one kind.
pub trait EntryWriter {
    ghost use Rattle.std.specs.Prelude.{◌≡◌, ◌++◌, ℕ, List, OnOk};

    type Entry;

    ghost text: { Self → Self.Entry → List ℕ };

    ghost spelled: { Self → Self.Entry → Type 0 };

    /// Appends the text of the entry.
    fn write(&self, entry: &Self::Entry, out: &mut Builder) -> Result<(), NoMemory>
        ensures added { OnOk result (out.new ≡ out.old ++ text self.now entry.now) }
        ensures spelled { OnOk result (spelled self.now entry.now) };
}

/// Appends the texts of the entries, one after another.
pub fn write_run<W: EntryWriter>(
    writer: &W,
    entries: &[W::Entry],
    out: &mut Builder,
) -> Result<(), NoMemory>
    ensures { OnOk result (out.new ≡ out.old ++ run_text (W.text writer.now) entries.now) }
{
    for entry in entries {
        writer.write(entry, out)?;
    }
    Ok(())
}

/// Appends a line for each entry.
pub fn write_lines<W: EntryWriter>(
    writer: &W,
    entries: &[W::Entry],
    out: &mut Builder,
) -> Result<(), NoMemory>
    ensures added { OnOk result (out.new ≡ out.old ++ text_of (map (W.text writer.now) entries.now)) }
    ensures spelled { OnOk result (All (W.spelled writer.now) entries.now) }
{
    for entry in entries {
        writer.write(entry, out)?;
        out.end_line()?;
    }
    Ok(())
}

/// The names of positions of the hold, each after a space.
#[derive(Clone, Copy)]
pub struct NamesOf<'a>(pub &'a Hold);

impl EntryWriter for NamesOf<'_> {
    ghost use Rattle.text_lines.specs.WordRuns.{name_text};

    type Entry = u8;

    ghost text = { λ w. name_text w.0.now.positions };

    ghost spelled = { λ _ _. Unit {0} };

    fn write(&self, entry: &u8, out: &mut Builder) -> Result<(), NoMemory> {
        out.word(self.0.name_at(*entry))
    }
}
