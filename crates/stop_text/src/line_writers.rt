//! Writers of the lines before the tasks.

ghost use Rattle.std.specs.Prelude.{◌≡◌, [], ◌∷◌, ◌++◌, length, map, OnOk};
ghost use Rattle.text_lines.specs.Lines.{text_of};
ghost use Rattle.stop_text.specs.StopFile.{leave_line};
ghost use Rattle.stop_text.specs.Writing.{leave_of, leaves_said};

use base_words::NoMemory;
use hold_limits::{Hold, Item};
use telex::Builder;
use text_lines::EntryWriter;

/// Appends the line of a container with its last sector.
fn push_leave(out: &mut Builder, item: &Item, sector: u8) -> Result<(), NoMemory>
    ensures { OnOk result (out.new ≡ out.old ++ (leave_line (leave_of (item.now, sector)) ++ 10 ∷ [])) }
{
    out.text(b"leave")?;
    out.word(item.id.bytes())?;
    out.text(b" ")?;
    out.count(u64::from(sector))?;
    out.end_line()
}

/// Appends a line for each container with its last sector.
pub fn push_leaves(out: &mut Builder, items: &[Item], leaves: &[u8]) -> Result<(), NoMemory>
    requires { length leaves.now ≡ length items.now }
    ensures { OnOk result (out.new ≡ out.old ++ text_of (map leave_line (leaves_said items.now leaves.now))) }
{
    for place in 0..items.len() {
        push_leave(out, &items[place], leaves[place])?;
    }
    Ok(())
}

/// Pairs of positions of the hold, the second behind the first.
#[derive(Clone, Copy)]
pub struct PairsBehind<'a>(pub &'a Hold);

impl EntryWriter for PairsBehind<'_> {
    ghost use Rattle.stop_text.specs.StopFile.{behind_line};
    ghost use Rattle.stop_text.specs.Writing.{names_of};

    type Entry = (u8, u8);

    ghost text = { λ w pair. behind_line (names_of w.0.now.positions pair) };

    ghost spelled = { λ _ _. Unit {0} };

    fn write(&self, pair: &(u8, u8), out: &mut Builder) -> Result<(), NoMemory> {
        out.text(b"behind")?;
        out.word(self.0.name_at(pair.0))?;
        out.word(self.0.name_at(pair.1))
    }
}
